// What the runs of a plan do to facts. Each function here states theorems, for any kind of fact, and does nothing.
#![tactic(auto)]

ghost use Rattle.runs.specs.Theorems.{NodesExact, RegionsExact, ValuesExact, SolutionsAgree, PremisesMet, RowsSound, RowsRanged, Beginnings, ApproachesBegin};

use kinds::kind::Kind;

// The effects and values that solve the scheme of a sweep are the meets over the runs, and two solutions act alike.
pub fn exact<K: Kind>(kind: &K)
    ensures nodes { NodesExact (K.Kind.algebra kind.now) }
    ensures regions { RegionsExact (K.Kind.algebra kind.now) }
    ensures values { ValuesExact (K.Kind.algebra kind.now) }
    ensures alike { SolutionsAgree (K.Kind.algebra kind.now) }
{}

// What `exact` asks for can be had, and every row of calls draws a plan that is sound, with operands in range.
pub fn premises_met<K: Kind>(kind: &K)
    ensures sample { PremisesMet (K.Kind.algebra kind.now) }
    ensures sound { RowsSound }
    ensures ranged { RowsRanged }
{}

// What has run when a node is reached begins a full word, and what stands before a step of a full word is an approach to it.
pub fn beginnings()
    ensures words { Beginnings }
    ensures approaches { ApproachesBegin }
{}

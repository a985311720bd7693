// The text of a report.
ghost use Rattle.std.specs.Prelude.{◌==◌, ◌≡◌, ◌<◌, ◌≤◌, [], ◌++◌, length, drop, decimal};
ghost use Rattle.tenths.specs.Text.{text_of};
ghost use Rattle.report.specs.Listing.{listed_in};
ghost use Rattle.report.specs.Putting.{RoomFor, found_in, list_lines};
ghost use Rattle.report.specs.Reported.{send_line, lines_of, lines_to, count_to, total_line, report_text};

use crate::marks::Marks;
use crate::reporting::TEXT;
use arrayvec::ArrayVec;
use itoa::Buffer;
use tenths::LONGEST;

// What is written of a report. The text is put together in a place of its own, and copied out when it is whole. It is put by
// bytes, not by `write!`, which may fail for all that the contract of `Display` says, and a report that is not refused may not.
#[derive(Drop)]
pub(crate) struct Page {
    text: ArrayVec<u8, TEXT>,
}

impl Page {
    // Puts bytes. There is room for them.
    fn put(&mut self, text: &[u8])
        requires { RoomFor self.old.text.items text.now }
        ensures { self.new.text.items ≡ self.old.text.items ++ text.now }
    {
        let _ = self.text.try_extend_from_slice(text);
    }

    // Puts a number in decimal.
    fn put_number(&mut self, number: usize)
        requires { RoomFor self.old.text.items (decimal number) }
        ensures { self.new.text.items ≡ self.old.text.items ++ decimal number }
    {
        self.put(Buffer::new().format(number).as_bytes());
    }

    // Puts a number of tenths as it stands on a label.
    fn put_tenths(&mut self, number: i32)
        requires { RoomFor self.old.text.items (text_of number) }
        ensures { self.new.text.items ≡ self.old.text.items ++ text_of number }
    {
        let mut label = [0; LONGEST];
        match tenths::write(number, &mut label) {
            Ok(length) => self.put(&label[0..length]),
            Err(_) => unreachable!(),
        }
    }

    // Puts a number and words behind it.
    fn put_words(&mut self, number: usize, words: &[u8])
        requires { RoomFor self.old.text.items (decimal number ++ words.now) }
        ensures { self.new.text.items ≡ self.old.text.items ++ (decimal number ++ words.now) }
    {
        self.put_number(number);
        self.put(words);
    }

    // Puts the line of a node that sends a fixed number, if it does.
    fn put_send(&mut self, node: usize, sent: Option<i32>)
        requires { RoomFor self.old.text.items (send_line node sent) }
        ensures { self.new.text.items ≡ self.old.text.items ++ send_line node sent }
    {
        let Some(number) = sent else {
            return;
        };
        self.put_words(node, b" sends ");
        self.put_tenths(number);
        self.put(b"\n");
    }

    // Puts the lines of a node in the two lists, by its byte in each.
    fn put_lists(&mut self, node: usize, redundant: u8, dead: u8)
        requires { RoomFor self.old.text.items (list_lines node (redundant == 1) (dead == 1)) }
        ensures { self.new.text.items ≡ self.old.text.items ++ list_lines node (redundant == 1) (dead == 1) }
    {
        if redundant == 1 {
            self.put_words(node, b" redundant\n");
        }
        if dead == 1 {
            self.put_words(node, b" dead\n");
        }
    }

    // Puts what is found of a node.
    fn put_node(&mut self, node: usize, redundant: u8, dead: u8, sent: Option<i32>)
        requires { RoomFor self.old.text.items (lines_of node (redundant == 1) (dead == 1) sent) }
        ensures { self.new.text.items ≡ self.old.text.items ++ lines_of node (redundant == 1) (dead == 1) sent }
    {
        self.put_lists(node, redundant, dead);
        self.put_send(node, sent);
    }

    // Puts what is found of each node, in their order: the loop goes over the result bytes with their index, as a report is told.
    fn put_nodes(&mut self, marks: &Marks)
        requires { RoomFor self.old.text.items (lines_to (found_in marks.now) (length marks.now.redundant.now)) }
        ensures { self.new.text.items ≡ self.old.text.items ++ lines_to (found_in marks.now) (length marks.now.redundant.now) }
    {
        for (node, byte) in marks.redundant.iter().enumerate() {
            self.put_node(node, *byte, marks.dead[node], marks.sent[node]);
        }
    }

    // Puts the last line, with the totals.
    fn put_totals(&mut self, nodes: usize, redundant: usize, dead: usize)
        requires { RoomFor self.old.text.items (total_line nodes redundant dead) }
        ensures { self.new.text.items ≡ self.old.text.items ++ total_line nodes redundant dead }
    {
        self.put(b"nodes ");
        self.put_words(nodes, b" redundant ");
        self.put_words(redundant, b" dead ");
        self.put_words(dead, b"\n");
    }

    // Puts the whole text of what is found: the lines of each node, and the totals.
    fn put_whole(&mut self, marks: &Marks)
        requires { RoomFor self.old.text.items (report_text (found_in marks.now) (length marks.now.redundant.now)) }
        ensures { self.new.text.items ≡ self.old.text.items ++ report_text (found_in marks.now) (length marks.now.redundant.now) }
    {
        self.put_nodes(marks);
        self.put_totals(
            marks.redundant.len(),
            count(marks.redundant),
            count(marks.dead),
        );
    }

    // Copies the text to the front of bytes, and answers its length.
    fn copy_to(&self, out: &mut [u8]) -> usize
        requires { length self.now.text.items ≤ length out.old }
        ensures length { result ≡ length self.now.text.items }
        ensures bytes { out.new ≡ self.now.text.items ++ drop result out.old }
    {
        let end = self.text.len();
        out[0..end].copy_from_slice(self.text.as_slice());
        end
    }
}

// Puts the whole text of what is found at the front of bytes, and answers its length. The page lies in a frame of its own, so
// that it takes no room on the stack while the plan is swept, and no time where a report is refused.
#[inline(never)]
pub(crate) fn put_report(marks: &Marks, out: &mut [u8]) -> usize
    requires room { RoomFor [] (report_text (found_in marks.now) (length marks.now.redundant.now)) }
    requires bytes { 8192 ≤ length out.old }
    ensures length { result ≡ length (report_text (found_in marks.now) (length marks.now.redundant.now)) }
    ensures bytes { out.new ≡ report_text (found_in marks.now) (length marks.now.redundant.now) ++ drop result out.old }
{
    let mut page = Page {
        text: ArrayVec::new(),
    };
    page.put_whole(marks);
    page.copy_to(out)
}

// How many nodes some bytes list.
#[tactic(auto, using(crate::proofs::Lines::count_listed))]
fn count(bytes: &[u8]) -> usize
    ensures { result ≡ count_to (listed_in bytes.now) (length bytes.now) }
{
    bytes.iter().filter(|byte| **byte == 1).count()
}

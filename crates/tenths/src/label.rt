// A number of tenths as a value that prints.
ghost use Rattle.std.specs.Prelude.{Some};
ghost use Rattle.tenths.specs.Text.{text_of};

use crate::{LONGEST, write};
use std::{fmt, str};

// A count of tenths, which prints as it stands on a label.
#[derive(Clone, Copy, PartialEq, Eq, Debug)]
pub struct Tenths(pub i32);

impl fmt::Display for Tenths {
    ghost output = { λ tenths. Some (text_of tenths.0) };

    fn fmt<W: fmt::Write>(&self, f: &mut fmt::Formatter<W>) -> fmt::Result {
        let mut text = [0; LONGEST];
        let length = write(self.0, &mut text).map_err(|_| fmt::Error)?;
        let label = str::from_utf8(&text[..length]).map_err(|_| fmt::Error)?;
        f.write_str(label)
    }
}

// Why words, readings, lines, files, pages and records are refused: document 01's table, each case once, with its
// number. 0 means accepted. specs/Numbers.antt has the numbers for the definitions, specs/Refusals.antt the number of
// each case, specs/Texts.antt its text.

#![tactic(auto)]

ghost use Rattle.std.specs.Prelude.{◌≡◌, Some};
ghost use Rattle.refusal.specs.Refusals.{number_of};
ghost use Rattle.refusal.specs.Texts.{text_of};

use std::error::Error;
use std::fmt;

#[derive(Clone, Copy, Debug, PartialEq, Eq)]
pub enum Refusal {
    // Fewer than four bytes to decode.
    Short = 1,
    // The word, by the manual's table that has no such word.
    Op = 2,
    Special = 3,
    Regimm = 4,
    Cop0 = 5,
    Cop1 = 6,
    Special2 = 7,
    Special3 = 8,
    // No word has the reading.
    NoWord = 9,
    // The reading has no line.
    NoLine = 10,
    // The line, or the first line of a page, has no room.
    NoRoom = 11,
    // A section file's length, count, flags or total, or its records are cut off.
    BadHeader = 12,
    // A record of a section file breaks its rules.
    BadRecord = 13,
    // The section file has no section of that number.
    NoSection = 14,
    // The body has no word of that index.
    NoIndex = 15,
    // Fewer than 80 bytes for the record of a word, or of it.
    ShortRecord = 16,
}

// Its number in the table.
impl From<Refusal> for u8 {
    ghost from_gives = { λ r n. n ≡ number_of r };

    fn from(r: Refusal) -> u8 {
        r as u8
    }
}

// Its text.
impl fmt::Display for Refusal {
    ghost output = { λ r. Some (text_of r) };

    fn fmt<W: fmt::Write>(&self, f: &mut fmt::Formatter<W>) -> fmt::Result {
        f.write_str(match self {
            Refusal::Short => "fewer than four bytes to decode",
            Refusal::Op => "no such op",
            Refusal::Special => "no such word of SPECIAL",
            Refusal::Regimm => "no such word of REGIMM",
            Refusal::Cop0 => "no such word of COP0",
            Refusal::Cop1 => "no such word of COP1",
            Refusal::Special2 => "no such word of SPECIAL2",
            Refusal::Special3 => "no such word of SPECIAL3",
            Refusal::NoWord => "no word has the reading",
            Refusal::NoLine => "the reading has no line",
            Refusal::NoRoom => "no room for the line",
            Refusal::BadHeader => "a bad header of a section file",
            Refusal::BadRecord => "a bad entry of a section file",
            Refusal::NoSection => "no section of that number",
            Refusal::NoIndex => "no word of that index",
            Refusal::ShortRecord => "fewer than 80 bytes for a record",
        })
    }
}

impl Error for Refusal {}

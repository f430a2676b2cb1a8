// The lines of a report but those of its events, each made in a buffer.
ghost use Rattle.std.specs.Prelude.{◌≡◌, ◌+◌, ◌≤◌, ◌++◌, Some, length};
ghost use Rattle.event_words.specs.ReportLines.{count_line, end_text, section_line, unit_line_of};

use crate::{Line, SectionEnd};

fn put_end(line: &mut Line, end: SectionEnd)
    requires { length line.old ≤ 249 }
    ensures text { line.new ≡ end_text end ++ line.old }
    ensures few { length line.new ≤ length line.old + 7 }
{
    match end {
        SectionEnd::Done => line.put(b"done"),
        SectionEnd::Stopped => line.put(b"stopped"),
    }
}

impl Line {
    /// Makes the first line, of a report with so many events.
    pub fn make_count(&mut self, count: u32)
        ensures { self.new ≡ count_line count }
    {
        self.clear();
        self.put(b"\n");
        self.put_decimal(count as u64);
        self.put(b"events ");
    }

    /// Makes the line of a section that ended.
    pub fn make_section(&mut self, number: u8, end: SectionEnd)
        ensures { self.new ≡ section_line number (Some end) }
    {
        self.clear();
        self.put(b"\n");
        put_end(self, end);
        self.put(b" ");
        self.put_decimal(number as u64);
        self.put(b"section ");
    }

    /// Makes the line of a unit with these four error registers.
    pub fn make_unit(&mut self, unit: u8, words: [u32; 4])
        ensures { self.new ≡ unit_line_of unit words }
    {
        let [info, addr, addrh, id] = words;
        self.clear();
        self.put(b"\n");
        self.put_hexadecimal(id as u64);
        self.put(b" ");
        self.put_hexadecimal(addrh as u64);
        self.put(b" ");
        self.put_hexadecimal(addr as u64);
        self.put(b" ");
        self.put_hexadecimal(info as u64);
        self.put(b" ");
        self.put_decimal(unit as u64);
        self.put(b"unit ");
    }
}

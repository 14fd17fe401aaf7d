// The text that planread prints, written to a buffer of bytes. A length and a position are cast, since there is no `u64::from` of a usize.
// A written text is answered by its length and not as a slice: of a slice a contract could not say that it is the front of the buffer.
ghost use Rattle.std.specs.Prelude.{◌≡◌, ◌+◌, ◌*◌, ◌≤◌, length};
ghost use Rattle.answers.specs.Packed.{length_of};
ghost use Rattle.text.specs.Report.{decimal_of, field_text, hex_line, hex_lines, accepted_text, refused_text, report_of};
ghost use Rattle.text.specs.Code.Written.{Appended, WrittenText};

use answers::Answer;

// A text at the start of a lent buffer of bytes: the buffer, and where the text ends in it. Each method writes behind the text.
// The text is not written by `write!`, since its contract lets any write fail, and says nothing of the text after that.
#[derive(Drop)]
struct Text<'a> {
    out: &'a mut [u8],
    end: usize,
}

// Writes the answer's line and, where it is accepted, its words, one a line, at the start of out. Answers the number of bytes.
pub fn report(answer: Answer, words: &[u32], out: &mut [u8]) -> usize
    requires { (length_of answer ≤ length words.now) × (length_of answer * 9 + 100 ≤ length out.old) }
    ensures { WrittenText (report_of answer words.now) out.new result }
{
    let mut text = Text { out, end: 0 };
    text.answer(answer, words);
    text.end
}

// Writes a text at the start of out. Answers the number of bytes.
pub fn line(out: &mut [u8], text: &[u8]) -> usize
    requires { length text.now ≤ length out.old }
    ensures { WrittenText text.now out.new result }
{
    out[..text.len()].copy_from_slice(text);
    text.len()
}

impl Text<'_> {
    fn answer(&mut self, answer: Answer, words: &[u32])
        requires { (length_of answer ≤ length words.now) × (self.old.end + length_of answer * 9 + 100 ≤ length self.old.out.now) }
        ensures { Appended self.old (report_of answer words.now) self.new }
    {
        match answer {
            Answer::Accepted { length, count } => self.accepted(&words[..length], count),
            Answer::Refused {
                number,
                position,
                count,
            } => self.refused(number, position, count),
        }
    }

    fn accepted(&mut self, words: &[u32], count: u64)
        requires { self.old.end + length words.now * 9 + 100 ≤ length self.old.out.now }
        ensures { Appended self.old (accepted_text (length words.now) count words.now) self.new }
    {
        self.field(b"read ", words.len() as u64);
        self.field(b" triples ", count);
        self.append(b"\n");
        self.lines(words);
    }

    fn refused(&mut self, number: u64, position: usize, count: u64)
        requires { self.old.end + 100 ≤ length self.old.out.now }
        ensures { Appended self.old (refused_text number position count) self.new }
    {
        self.field(b"refused ", number);
        self.field(b" at ", position as u64);
        self.field(b" triples ", count);
        self.append(b"\n");
    }

    fn field(&mut self, name: &[u8], n: u64)
        requires { self.old.end + length name.now + 20 ≤ length self.old.out.now }
        ensures appended { Appended self.old (field_text name.now n) self.new }
        ensures upper_bound { self.new.end ≤ self.old.end + length name.now + 20 }
    {
        self.append(name);
        self.decimal(n);
    }

    fn lines(&mut self, words: &[u32])
        requires { self.old.end + length words.now * 9 ≤ length self.old.out.now }
        ensures { Appended self.old (hex_lines words.now) self.new }
    {
        for &word in words {
            self.hex_line(word);
        }
    }

    fn hex_line(&mut self, word: u32)
        requires { self.old.end + 9 ≤ length self.old.out.now }
        ensures { Appended self.old (hex_line word) self.new }
    {
        let mut digits = [0u8; 16];
        let k = io::hex(u64::from(word), 8, &mut digits);
        self.append(&digits[..k]);
        self.append(b"\n");
    }

    fn decimal(&mut self, n: u64)
        requires { self.old.end + 20 ≤ length self.old.out.now }
        ensures appended { Appended self.old (decimal_of n) self.new }
        ensures upper_bound { self.new.end ≤ self.old.end + 20 }
    {
        let mut digits = [0u8; 20];
        let k = io::decimal(n, &mut digits);
        self.append(&digits[..k]);
    }

    fn append(&mut self, text: &[u8])
        requires { self.old.end + length text.now ≤ length self.old.out.now }
        ensures { Appended self.old text.now self.new }
    {
        let end = self.end + text.len();
        self.out[self.end..end].copy_from_slice(text);
        self.end = end;
    }
}

// The printed text: code and first number, a line for each row, a line for the ledger.
#![tactic(auto)]

ghost use Rattle.std.specs.Prelude.{◌≡◌, ◌+◌, ◌*◌, ◌<◌, ◌≤◌, min, [], ◌∷◌, ◌++◌, length};
ghost use Rattle.day.specs.Windows.{at};
ghost use Rattle.checks.specs.Check.{most_jobs};
ghost use Rattle.text.specs.Decimal.{decimal};
ghost use Rattle.text.specs.steps.Append.{Appended};
ghost use Rattle.text.specs.Lines.{blank, line_feed, spaced, line, row_line, row_lines, Prints, lines};

use checks::{Answer, MOST_JOBS, code};
use day::at_or_zero;
use ledger::Counts;

// The text is the first `len` bytes. They stand beside their length, since the memory is fixed and what is promised of a text names every byte.
#[derive(Drop)]
pub struct Text {
    pub bytes: [u8; 512],
    pub len: usize,
}

// The text for any answer, also one that no call gives, since the clause speaks of all; rows, the first 40 where there are more, and ledger appear only where the answer is done.
// The count stands beside the starts, since a row past their end has a line too, with a start of 0.
pub fn render(answer: Answer, count: u16, starts: &[u16], counts: Counts) -> Text
    ensures { Prints (lines answer (min count most_jobs) (at starts.now) counts) result }
{
    let mut text = Text::empty();
    text.line(b"plan", &[answer.code, answer.first]);
    if answer.code != code::DONE {
        return text;
    }
    text.rows(shown(count), starts);
    let slots = [
        counts.before,
        counts.job,
        counts.awake,
        counts.asleep,
        counts.after,
    ];
    text.line(b"slots", &slots);
    text
}

// How many rows have a line.
fn shown(count: u16) -> usize
    ensures { result ≡ min count most_jobs }
{
    usize::from(count.min(MOST_JOBS))
}

// Each method that changes a text puts bytes at its end.
impl Text {
    fn empty() -> Text
        ensures { Prints [] result }
    {
        Text {
            bytes: [0; 512],
            len: 0,
        }
    }

    // A word, numbers, and the line's end.
    fn line(&mut self, word: &[u8], numbers: &[u16])
        requires { self.old.len + length word.now + 6 * length numbers.now + 1 ≤ 512 }
        ensures within { self.new.len ≤ self.old.len + length word.now + 6 * length numbers.now + 1 }
        ensures puts { Appended (line word.now numbers.now) self.old self.new }
    {
        self.word(word);
        self.numbers(numbers);
    }

    // A line for each of the first `count` rows.
    fn rows(&mut self, count: usize, starts: &[u16])
        requires { (count ≤ 40) × (self.old.len + 9 * count ≤ 512) }
        ensures within { self.new.len ≤ self.old.len + 9 * count }
        ensures puts { Appended (row_lines (at starts.now) count) self.old self.new }
    {
        for row in 0..count {
            self.row((row + 1) as u16, at_or_zero(starts, row));
        }
    }

    #[tactic(auto, using(crate::proofs::Decimal::decimal_two))]
    fn row(&mut self, row: u16, start: u16)
        requires { (row < 100) × (self.old.len + 9 ≤ 512) }
        ensures within { self.new.len ≤ self.old.len + 9 }
        ensures puts { Appended (row_line row start) self.old self.new }
    {
        self.decimal(row);
        self.numbers(&[start]);
    }

    // The numbers of a line, a blank before each, and the line's end.
    #[tactic(auto, using(crate::proofs::Append::appended_none), unfolding(crate::specs::Lines::spaced))]
    fn numbers(&mut self, numbers: &[u16])
        requires { self.old.len + 6 * length numbers.now + 1 ≤ 512 }
        ensures within { self.new.len ≤ self.old.len + 6 * length numbers.now + 1 }
        ensures puts { Appended (spaced numbers.now ++ line_feed) self.old self.new }
    {
        for number in numbers {
            self.spaced(*number);
        }
        self.byte(b'\n');
    }

    // A blank and a number.
    #[tactic(auto, using(crate::proofs::Decimal::decimal_short))]
    fn spaced(&mut self, number: u16)
        requires { self.old.len + 6 ≤ 512 }
        ensures within { self.new.len ≤ self.old.len + 6 }
        ensures puts { Appended (blank ++ decimal number) self.old self.new }
    {
        self.byte(b' ');
        self.decimal(number);
    }

    // A number's digits: those of its tenth where it has more than one, then its last. By hand, since `write!` promises what it wrote only
    // where it answers Ok, and never that it does, and a text that is to be whole has no other answer.
    #[tactic(auto, using(crate::proofs::Decimal::decimal_small, crate::proofs::Decimal::decimal_large))]
    fn decimal(&mut self, number: u16)
        requires { self.old.len + length (decimal number) ≤ 512 }
        ensures { Appended (decimal number) self.old self.new }
    {
        if number < 10 {
            return self.byte(b'0' + (number as u8));
        }
        self.decimal(number / 10);
        self.byte(b'0' + ((number % 10) as u8));
    }

    fn byte(&mut self, byte: u8)
        requires { self.old.len < 512 }
        ensures { Appended (byte ∷ []) self.old self.new }
    {
        self.word(&[byte]);
    }

    fn word(&mut self, word: &[u8])
        requires { self.old.len + length word.now ≤ 512 }
        ensures { Appended word.now self.old self.new }
    {
        let end = self.len + word.len();
        self.bytes[self.len..end].copy_from_slice(word);
        self.len = end;
    }
}

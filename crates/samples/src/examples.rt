// Examples of documents 01 and 02 that are not proved of the definitions: limits, refusals, slips, crowded spans, what fills the slots of a
// plan, and the program's answers to files. They are read from standard input; the file `stdin` has them, and says what stands in a line.
use crate::case::Case;
use crate::tally::Tally;
use crate::{beside, direct};
use checks::{Answer, code};
use crowd::CrowdedSpan;
use day::{Day, Power, at_or_zero};
use ledger::Fill;
use streams::read;

// What the numbers of a line say, but for a line of a file: the case, the places of the work table, the answer, and the starts or a crowded
// span.
#[derive(Clone, Copy)]
struct Example<'a> {
    case: Case<'a>,
    places: usize,
    answer: Answer,
    rest: &'a [u16],
}

impl<'a> Example<'a> {
    // A number that is missing is 0.
    fn of(numbers: &'a [u16]) -> Example<'a> {
        let count = usize::from(at_or_zero(numbers, 0));
        let rows = &numbers[numbers.len().min(7)..];
        let (releases, others) = rows.split_at(count.min(rows.len()));
        let (deadlines, rest) = others.split_at(count.min(others.len()));
        let day = Day {
            slots: at_or_zero(numbers, 1),
            power: Power {
                wake: at_or_zero(numbers, 2),
            },
        };
        Example {
            case: Case {
                day,
                count,
                releases,
                deadlines,
            },
            places: usize::from(at_or_zero(numbers, 3)),
            answer: Answer {
                code: at_or_zero(numbers, 4),
                first: at_or_zero(numbers, 5),
                second: at_or_zero(numbers, 6),
            },
            rest,
        }
    }

    // The crowded span that stands in place of the starts.
    fn span(&self) -> CrowdedSpan {
        CrowdedSpan {
            begin: at_or_zero(self.rest, 0),
            end: at_or_zero(self.rest, 1),
            jobs: at_or_zero(self.rest, 2),
        }
    }

    // Whether the library does what a line of this kind says.
    fn is_right(&self, kind: u8, words: &[u8], table: &mut [u16]) -> bool {
        let Example {
            case,
            places,
            answer,
            rest,
        } = *self;
        match kind {
            b'p' => beside::planned(case, places, answer, rest, table),
            b'w' => beside::shows_span(case, answer, self.span()),
            b's' => {
                beside::priced(case, answer, rest)
                    && beside::claimed(case, rest)
                    && self.is_drawn(words)
            }
            _ => beside::priced(case, answer, rest),
        }
    }

    // Whether direct counting says what is drawn, a byte for each slot.
    fn is_drawn(&self, drawn: &[u8]) -> bool {
        let slots = self.case.day.slots;
        drawn.len() == usize::from(slots)
            && (0..slots).zip(drawn).all(|(slot, byte)| {
                self.answer.code == code::DONE
                    && direct::fill(self.case, self.rest, slot) == fill_of(*byte)
            })
    }
}

// Runs every example.
pub(crate) fn run(rt: &(impl Input + Print), table: &mut [u16]) {
    let mut text = [0u8; 65536];
    // A read that fails leaves no example to run.
    let length = read::read_whole(&mut rt.reader(), &mut text).unwrap_or(0);
    let tally = run_lines(&text[..length], table);
    // A line that is lost shows in what the program wrote.
    let _ = print!(rt; "examples {tally}");
}

// A line that is empty or starts with `#` is no example, and neither is what has no line's end.
fn run_lines(text: &[u8], table: &mut [u16]) -> Tally {
    let mut tally = Tally::default();
    for ended in text.split_inclusive(|byte| *byte == b'\n') {
        if let Some((b'\n', line)) = ended.split_last()
            && let Some(kind) = line.first()
            && !matches!(*kind, 0 | b'#')
        {
            tally.count(is_right(*kind, line, table));
        }
    }
    tally
}

// Whether the library does what a line says: numbers as far as a colon, and words from the second byte after it. Its first byte is its kind, and
// stays a byte, since any that is no other kind's is a claim's.
fn is_right(kind: u8, line: &[u8], table: &mut [u16]) -> bool {
    let colon = line.iter().position(|byte| *byte == b':');
    let colon = colon.unwrap_or(line.len()).min(line.len());
    let words = &line[line.len().min(colon.saturating_add(2))..];
    let mut list = [0; 96];
    put_numbers(&line[..colon], &mut list);
    let numbers = &list[1..];
    let numbers = &numbers[..numbers.len().min(usize::from(list[0]))];
    if kind == b'f' {
        return is_printed(numbers, words, table);
    }
    Example::of(numbers).is_right(kind, words, table)
}

// Puts the numbers of a line, each of which has a blank before it, after how many there are: a blank counts one more, a digit goes to the last.
fn put_numbers(line: &[u8], list: &mut [u16; 96]) {
    for byte in line {
        let count = usize::from(list[0]);
        if *byte == b' ' {
            list[0] = list[0].wrapping_add(1);
        } else if let Some(last) = list.get_mut(count) {
            *last = with_digit(*last, *byte);
        }
    }
}

// A number with one digit more, if the byte is one.
fn with_digit(number: u16, byte: u8) -> u16 {
    if byte.is_ascii_digit() {
        let digit = u16::from(byte.wrapping_sub(b'0'));
        number.wrapping_mul(10).wrapping_add(digit)
    } else {
        number
    }
}

// What a byte stands for; a digit is the row of a job.
fn fill_of(byte: u8) -> Fill {
    match byte {
        b'<' => Fill::Before,
        b'.' => Fill::Awake,
        b'z' => Fill::Asleep,
        b'>' => Fill::After,
        _ => Fill::Job(with_digit(0, byte)),
    }
}

// Whether the program prints this text for a file, of which notes and the bytes after them are given; `/` stands for the end of a line.
fn is_printed(numbers: &[u16], expected: &[u8], table: &mut [u16]) -> bool {
    let notes = usize::from(at_or_zero(numbers, 0));
    let bytes = &numbers[numbers.len().min(1)..];
    let mut file = [0u8; 4200];
    for (place, number) in file.iter_mut().skip(notes).zip(bytes) {
        *place = (*number % 256) as u8;
    }
    let length = notes.saturating_add(bytes.len()).min(4200);
    let text = report::report(&file[..length], table);
    let printed = &text.bytes[..text.len.min(512)];
    let expected = expected
        .iter()
        .map(|byte| if *byte == b'/' { b'\n' } else { *byte });
    printed.iter().copied().eq(expected)
}

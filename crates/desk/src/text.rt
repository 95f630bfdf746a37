// The lines that are printed, written into a lent buffer.
ghost use Rattle.std.specs.Prelude.{◌+◌, ◌^◌, ◌<◌, ◌≤◌, length};
ghost use Rattle.model.specs.Answers.{rule_number, answer_of};
ghost use Rattle.output.specs.Text.{Wrote, decimal_of};
ghost use Rattle.report.specs.Varlist.{field, refused_line};
ghost use Rattle.desk.specs.Season.{word_of, step_line};

use crate::Played;
use model::{Answer, Rule};

// A number in decimal, of up to twenty digits: its last one after those of a tenth of it.
fn put_number(out: &mut [u8], at: usize, n: u64) -> usize
    requires { at < 2 ^ 61 }
    ensures { Wrote (decimal_of n) at out.old out.new result × (result ≤ at + 20) }
{
    if n < 10 {
        return output::put_decimal(out, at, n as u32);
    }
    let next = put_number(out, at, n / 10);
    output::put_decimal(out, next, (n % 10) as u32)
}

// A word, and a number after it.
fn put_field(out: &mut [u8], at: usize, word: &[u8], n: u64) -> usize
    requires { (at < 2 ^ 60) × (length word.now < 2 ^ 60) }
    ensures { Wrote (field word.now n) at out.old out.new result × (result ≤ at + length word.now + 20) }
{
    let next = output::put_bytes(out, at, word);
    put_number(out, next, n)
}

// "`done`, `stopped` or `refused` and its number".
fn put_word(out: &mut [u8], at: usize, answer: Answer) -> usize
    requires { at < 2 ^ 59 }
    ensures { Wrote (word_of (answer_of answer)) at out.old out.new result × (result ≤ at + 28) }
{
    match answer {
        Answer::Done(_) => output::put_bytes(out, at, b"done"),
        Answer::Stopped => output::put_bytes(out, at, b"stopped"),
        Answer::Refused(rule) => put_field(out, at, b"refused ", u64::from(u32::from(rule))),
    }
}

// The line of a step: its answer, its stores, the offset of the tail, and the erases so far.
pub fn put_line(out: &mut [u8], at: usize, p: Played, tail: usize, erases: u64) -> usize
    requires { at < 2 ^ 58 }
    ensures { Wrote (step_line (answer_of p.answer) p.stores tail erases) at out.old out.new result × (result ≤ at + 92) }
{
    let answer = p.answer;
    let next = put_word(out, at, answer);
    let next = put_field(out, next, b" ", p.stores);
    let next = put_field(out, next, b" ", tail as u64);
    let next = put_field(out, next, b" ", erases);
    output::put_byte(out, next, b'\n')
}

// A script that is refused.
pub fn put_refused(out: &mut [u8], rule: Rule) -> usize
    ensures { Wrote (refused_line (rule_number rule)) 0 out.old out.new result × (result ≤ 29) }
{
    let next = put_field(out, 0, b"refused ", u64::from(u32::from(rule)));
    output::put_byte(out, next, b'\n')
}

// The table: a scenario a line, its name, a colon, its commands, a bar, and what is expected at the end. A line that
// begins with a '#' is a remark.
use crate::bench::Bench;
use crate::command::Command;
use std::io;

// How many scenarios have run, and how many of them came out wrong.
#[derive(Clone, Copy, Default)]
struct Tally {
    ran: u64,
    wrong: u64,
}

impl Tally {
    fn count(&mut self, right: bool) {
        self.ran = self.ran.wrapping_add(1);
        if !right {
            self.wrong = self.wrong.wrapping_add(1);
        }
    }
}

// Runs a scenario. A command that ends with the line is one only if it has a word.
fn run(line: &[u8]) -> Bench {
    let mut bench = Bench::fresh();
    let mut command = Command::none();
    for byte in line {
        if let Some(whole) = command.read(*byte) {
            bench.does(&whole);
        }
    }
    if let Some(last) = command.read(b';')
        && last.verb.is_some()
    {
        bench.does(&last);
    }
    bench
}

// The name of a scenario, up to its colon, and blanks up to the next column.
fn name(rt: &impl Print, line: &[u8]) -> io::Result<()> {
    let Some(n) = line.iter().position(|byte| *byte == b':') else {
        return Ok(());
    };
    rt.write_all(&line[..n])?;
    match n {
        2 => print!(rt; "   "),
        3 => print!(rt; "  "),
        _ => print!(rt; " "),
    }
}

// A step's words, in the text up to what is expected of it: behind the last colon, or else from the first semicolon on.
fn words(text: &[u8]) -> &[u8] {
    if let Some(colon) = text.iter().rposition(|byte| *byte == b':') {
        return &text[colon + 1..];
    }
    match text.iter().position(|byte| *byte == b';') {
        Some(semicolon) => &text[semicolon..],
        None => &[],
    }
}

// The steps in words: a line up to its bar, without the name and what is expected of each step.
fn tells(rt: &impl Print, line: &[u8]) -> io::Result<()> {
    for text in line.split_inclusive(|byte| *byte == b'=' || *byte == b'|') {
        match text {
            [step @ .., b'='] => rt.write_all(words(step))?,
            [step @ .., b'|'] => return rt.write_all(words(step)),
            _ => {}
        }
    }
    Ok(())
}

// Runs a scenario, and prints its line. Tells whether everything came out as expected.
fn show(rt: &impl Print, line: &[u8]) -> io::Result<bool> {
    let bench = run(line);
    let right = bench.is_right();
    name(rt, line)?;
    if right {
        print!(rt; "ok    ")?;
    } else {
        print!(rt; "WRONG ")?;
        bench.warns(rt)?;
    }
    bench.shows_steps(rt)?;
    print!(rt; "  |")?;
    tells(rt, line)?;
    bench.shows_slots(rt)?;
    println!(rt)?;
    Ok(right)
}

// Every line, and the count.
pub(crate) fn all(rt: &impl Print, text: &[u8]) -> io::Result<()> {
    let mut tally = Tally::default();
    for ended in text.split_inclusive(|byte| *byte == b'\n') {
        let line = ended.strip_suffix(b"\n").unwrap_or(ended);
        if line.is_empty() || line.starts_with(b"#") {
            rt.write_all(line)?;
            println!(rt)?;
        } else {
            tally.count(show(rt, line)?);
        }
    }
    println!(rt; "\n{} scenarios, {} wrong", tally.ran, tally.wrong)
}

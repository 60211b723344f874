//! The state of a case.

use crate::answer::{Answer, Devices};
use crate::desk_view;
use crate::desk_view::add_cancels;
use crate::desks::{Desks, place_of};
use crate::extents::Call;
use crate::fault::Fault;
use crate::guard::Guard;
use crate::history::print_history;
use crate::memory_store::MemoryStore;
use crate::pure::{print_decoded, print_encoded, print_read, print_resolved};
use crate::transcript::{
    add_shown, number, parts, push, push_line, push_named, push_refused, show,
};
use ssim_desk::Step;
use ssim_program::{Refusal, Store, StoreFault};
use ssim_records::Bytes;
use ssim_vectors::add_vector;
use std::alloc::{AllocError, Global};

/// The named lines, which last to the end of the input, and the state of the case that runs.
#[derive(Drop)]
pub struct Case<'t> {
    alloc: Global,
    named: Vec<(&'t str, &'t str)>,
    store: MemoryStore,
    /// The bytes that no file has yet, and where their last line begins.
    bytes: Vec<u8>,
    last_line: usize,
    /// What the last run printed.
    printed: Vec<u8>,
    devices: Devices,
    desks: Desks,
    /// Whether calls are guarded, to the end of the input.
    guard: Option<Guard<'t>>,
    transcript: Vec<u8>,
}

impl<'t> Case<'t> {
    pub fn new(alloc: Global) -> Case<'t> {
        Case {
            alloc,
            named: Vec::new(alloc),
            store: MemoryStore::new(alloc),
            bytes: Vec::new(alloc),
            last_line: 0,
            printed: Vec::new(alloc),
            devices: Devices::new(),
            desks: Desks::new(alloc),
            guard: None,
            transcript: Vec::new(alloc),
        }
    }

    /// What was printed of all cases.
    pub fn transcript(&self) -> &[u8] {
        &self.transcript
    }

    /// Follows all lines, and stops at the first that cannot be followed.
    pub fn follow_all(&mut self, lines: &'t str) -> Result<(), Fault> {
        for line in lines.lines() {
            if let Err(fault) = self.follow(line) {
                if let Fault::Line = fault {
                    push(&mut self.transcript, "not understood: ")?;
                    push_line(&mut self.transcript, line)?;
                }
                return Err(fault);
            }
        }
        Ok(())
    }

    /// Does what a line asks.
    fn follow(&mut self, line: &'t str) -> Result<(), Fault> {
        let (word, rest) = line.split_once(' ').unwrap_or((line, ""));
        match word {
            "" | "#" => Ok(()),
            "case" => self.begin(line),
            "let" => Ok(self.named.push(parts(rest)?)?),
            "|" => self.add(rest),
            "=" => self.add_named(rest),
            "times" => self.add_times(rest),
            "file" => self.keep(rest),
            "fails" => self.devices.let_fail(rest),
            "stops" => self.devices.let_stop(rest),
            "guard" => self.begin_guard(rest),
            "cancels" => add_cancels(&mut self.bytes, rest),
            "desks" => self.start_desks(rest),
            "more" => self.add_desks(rest),
            "^" | "at" | "cut" | "out" | "load" => self.change_bytes(word, rest),
            _ => {
                push_line(&mut self.transcript, line)?;
                self.answer(word, rest)
            }
        }
    }

    fn begin(&mut self, line: &str) -> Result<(), Fault> {
        self.store = MemoryStore::new(self.alloc);
        self.bytes.clear();
        self.printed.clear();
        self.devices = Devices::new();
        self.desks.clear();
        push(&mut self.transcript, "\n")?;
        push_line(&mut self.transcript, line)
    }

    fn begin_guard(&mut self, rest: &'t str) -> Result<(), Fault> {
        self.guard = Some(Guard::parse(rest)?);
        Ok(())
    }

    fn line_named(&self, name: &str) -> Option<&'t str> {
        for (other, text) in &self.named {
            if *other == name {
                return Some(*text);
            }
        }
        None
    }

    /// Adds a named line, or the lines of a vector.
    fn add_named(&mut self, name: &str) -> Result<(), Fault> {
        if let Some(text) = self.line_named(name) {
            return self.add(text);
        }
        self.last_line = self.bytes.len();
        if add_vector(&mut self.bytes, name)? {
            return Ok(());
        }
        Err(Fault::Line)
    }

    /// Adds the same again and again.
    fn add_times(&mut self, rest: &str) -> Result<(), Fault> {
        let (count, name) = parts(rest)?;
        for _ in 0..number(count)? {
            self.add_named(name)?;
        }
        Ok(())
    }

    /// Changes the bytes that no file has yet.
    fn change_bytes(&mut self, word: &str, rest: &str) -> Result<(), Fault> {
        match word {
            "^" => {
                let (column, text) = parts(rest)?;
                let start = self.last_line.saturating_add(number(column)?);
                self.write_over(start.saturating_sub(1), text)
            }
            "at" => {
                let (offset, text) = parts(rest)?;
                self.write_over(number(offset)?, text)
            }
            "cut" => {
                let count = number(rest)?;
                self.bytes.truncate(self.bytes.len().saturating_sub(count));
                Ok(())
            }
            "load" => {
                let bytes = self.load(rest)?;
                Ok(self.bytes.extend_from_slice(&bytes)?)
            }
            _ => Ok(self.bytes.extend_from_slice(&self.printed)?),
        }
    }

    fn add(&mut self, text: &str) -> Result<(), Fault> {
        self.last_line = self.bytes.len();
        add_shown(&mut self.bytes, text)?;
        Ok(self.bytes.push(b'\n')?)
    }

    fn write_over(&mut self, start: usize, text: &str) -> Result<(), Fault> {
        let mut shown = Vec::new(self.alloc);
        add_shown(&mut shown, text)?;
        for (old, new) in self.bytes.iter_mut().skip(start).zip(&shown) {
            *old = *new;
        }
        Ok(())
    }

    /// The bytes become a file.
    fn keep(&mut self, name: &str) -> Result<(), Fault> {
        self.store.add(name, &self.bytes)?;
        self.bytes.clear();
        Ok(())
    }

    fn load(&mut self, name: &str) -> Result<Vec<u8>, Fault> {
        match self.store.load(self.alloc, name, 10_000_000) {
            Ok(bytes) => Ok(bytes),
            Err(StoreFault::Memory) => Err(Fault::Memory),
            Err(StoreFault::Fault) => Err(Fault::Line),
        }
    }

    /// The bytes of two files.
    fn load_two(&mut self, names: &str) -> Result<(Vec<u8>, Vec<u8>), Fault> {
        let (first, second) = parts(names)?;
        let first = self.load(first)?;
        Ok((first, self.load(second)?))
    }

    /// Puts desks over the base of two files, a data set and a station table, in place of those
    /// there are.
    fn start_desks(&mut self, rest: &str) -> Result<(), Fault> {
        self.desks.clear();
        self.add_desks(rest)
    }

    fn add_desks(&mut self, rest: &str) -> Result<(), Fault> {
        let (count, names) = parts(rest)?;
        let (data_set, table) = self.load_two(names)?;
        self.desks.add(number(count)?, &data_set, &table)
    }

    /// Prints what a line asks for.
    fn answer(&mut self, word: &str, rest: &str) -> Result<(), Fault> {
        match word {
            "run" => self.run(rest),
            "history" => self.run_history(rest),
            "prefixes" => self.run_on_prefixes(rest),
            "opens" | "reads" | "saves" | "exports" | "puts" => self.try_extents(word, rest),
            "show" | "size" | "equal" => self.show_file(word, rest),
            _ => self.ask(word, rest),
        }
    }

    /// Makes a call with devices that fail after each number of bytes, and prints the results.
    fn try_extents(&mut self, word: &str, rest: &str) -> Result<(), Fault> {
        let (how, rest) = parts(rest)?;
        let (step, name) = parts(rest)?;
        let (step, stops) = (number(step)?, how == "stop");
        let out = &mut self.transcript;
        match word {
            "saves" => Call::Save(self.desks.desk(name)?).print(self.alloc, step, stops, out),
            "exports" => Call::Export(self.desks.desk(name)?).print(self.alloc, step, stops, out),
            _ => self.try_bytes(word, name, step, stops),
        }
    }

    /// Makes a call on the bytes of files with such devices, and prints the results.
    fn try_bytes(
        &mut self,
        word: &str,
        names: &str,
        step: usize,
        stops: bool,
    ) -> Result<(), Fault> {
        let (name, table) = names.split_once(' ').unwrap_or((names, names));
        let (bytes, table) = (self.load(name)?, self.load(table)?);
        let call = match word {
            "opens" => Call::Open(&bytes),
            "reads" => Call::Read(&bytes, &table),
            _ => Call::Put(&bytes),
        };
        call.print(self.alloc, step, stops, &mut self.transcript)
    }

    /// Calls the library, and prints the result. A guarded call that runs out of memory has to
    /// leave all desks as they were, and is made again.
    fn ask(&mut self, word: &str, rest: &str) -> Result<(), Fault> {
        let Some(guard) = self.guard else {
            return self.call(word, rest);
        };
        let before = guard.seen(self.alloc, self.desks.all())?;
        let start = self.transcript.len();
        self.call(word, rest)?;
        if !self.is_refused(start) {
            return Ok(());
        }
        let after = guard.seen(self.alloc, self.desks.all())?;
        if before.as_slice() != after.as_slice() {
            return Err(Fault::Changed);
        }
        self.call(word, rest)
    }

    /// Whether the transcript has from here on that memory ran out.
    fn is_refused(&self, start: usize) -> bool {
        match self.transcript.get(start..) {
            Some(answer) => answer.starts_with(b"refused 90") || answer.starts_with(b"refused 52"),
            None => false,
        }
    }

    /// Calls the library as a line asks, and prints the result.
    fn call(&mut self, word: &str, rest: &str) -> Result<(), Fault> {
        match word {
            "read" | "start" => self.call_on_base(word, rest),
            "decode" | "encode" => self.call_on_text(word, rest),
            "resolve" => self.resolve(rest),
            "steps" => self.run_steps(rest),
            "take" => self.take(rest),
            "open" => self.open(rest),
            "save" => self.save(rest),
            "same" => self.desks.compare(&mut self.transcript),
            _ => self.call_on_desk(word, rest),
        }
    }

    fn call_on_base(&mut self, word: &str, rest: &str) -> Result<(), Fault> {
        let (data_set, table) = self.load_two(rest)?;
        match word {
            "read" => print_read(self.alloc, &data_set, &table, &mut self.transcript),
            _ => self.desks.start(&data_set, &table, &mut self.transcript),
        }
    }

    fn call_on_text(&mut self, word: &str, name: &str) -> Result<(), Fault> {
        let text = self.load(name)?;
        match word {
            "decode" => print_decoded(self.alloc, &text, &mut self.transcript),
            _ => print_encoded(self.alloc, &text, &mut self.transcript),
        }
    }

    fn resolve(&mut self, rest: &str) -> Result<(), Fault> {
        let (desk, name) = parts(rest)?;
        let text = self.load(name)?;
        let base = self.desks.desk(desk)?.base();
        print_resolved(self.alloc, base, &text, &mut self.transcript)
    }

    fn run_steps(&mut self, name: &str) -> Result<(), Fault> {
        let script = self.load(name)?;
        let steps = self.steps_of(&script)?;
        self.desks.run(&steps, &mut self.transcript)
    }

    /// The steps of lines as `TAKE 1 FILE` and `MERGE 1 2`.
    fn steps_of(&mut self, script: &[u8]) -> Result<Vec<Step>, Fault> {
        let mut steps = Vec::new(self.alloc);
        let Ok(script) = str::from_utf8(script) else {
            return Err(Fault::Line);
        };
        for line in script.lines() {
            steps.push(self.step_of(line)?)?;
        }
        Ok(steps)
    }

    fn step_of(&mut self, line: &str) -> Result<Step, Fault> {
        let (word, rest) = parts(line)?;
        let (desk, other) = parts(rest)?;
        let place = place_of(desk)?;
        if word == "TAKE" {
            return Ok(Step::Take(place, self.load(other)?));
        }
        Ok(Step::Merge(place, place_of(other)?))
    }

    fn take(&mut self, rest: &str) -> Result<(), Fault> {
        let (desk, name) = parts(rest)?;
        let text = self.load(name)?;
        self.desks.take(desk, &text, &mut self.transcript)
    }

    fn open(&mut self, rest: &str) -> Result<(), Fault> {
        let (name, limit) = parts(rest)?;
        let file = self.load(name)?;
        self.desks
            .open(&file, number(limit)? as u64, &mut self.transcript)
    }

    /// Keeps the desk file of a desk, or prints why it was not written.
    fn save(&mut self, rest: &str) -> Result<(), Fault> {
        let (desk, name) = parts(rest)?;
        let mut file = Bytes::new(self.alloc);
        match self.desks.desk(desk)?.save(&mut file) {
            Ok(()) => Ok(self.store.add(name, file.bytes())?),
            Err(_) => push_refused(&mut self.transcript, &Refusal::WriteFault),
        }
    }

    fn call_on_desk(&mut self, word: &str, rest: &str) -> Result<(), Fault> {
        let (desk, rest) = rest.split_once(' ').unwrap_or((rest, ""));
        match word {
            "merge" => self.desks.merge(desk, rest, &mut self.transcript),
            "copy" => self.desks.copy(desk),
            _ => {
                let desk = self.desks.desk(desk)?;
                desk_view::print(self.alloc, desk, word, rest, &mut self.transcript)
            }
        }
    }

    /// Prints the bytes of a file or their number, or whether two files have the same bytes.
    fn show_file(&mut self, word: &str, rest: &str) -> Result<(), Fault> {
        let (name, other) = rest.split_once(' ').unwrap_or((rest, ""));
        match self.load(name) {
            Ok(bytes) => self.show_bytes(word, &bytes, other),
            Err(Fault::Line) => push_line(&mut self.transcript, "no file"),
            Err(fault) => Err(fault),
        }
    }

    fn show_bytes(&mut self, word: &str, bytes: &[u8], other: &str) -> Result<(), Fault> {
        match word {
            "show" => show(&mut self.transcript, "bytes", bytes),
            "size" => {
                push_named(&mut self.transcript, "bytes ", &bytes.len())?;
                push_line(&mut self.transcript, "")
            }
            _ => {
                let equal = bytes == self.load(other)?.as_slice();
                let word = if equal { "equal" } else { "different" };
                push_line(&mut self.transcript, word)
            }
        }
    }

    /// Runs the program, and prints what it returned.
    fn run(&mut self, rest: &str) -> Result<(), Fault> {
        let words = words_of(self.alloc, rest)?;
        let answer = self.answer_of(&words);
        answer.print(&mut self.transcript)?;
        self.printed.clear();
        Ok(self.printed.extend_from_slice(&answer.out)?)
    }

    /// Runs the program on the words of each line of a file, one command after another, and prints
    /// what they wrote.
    fn run_history(&mut self, name: &str) -> Result<(), Fault> {
        let script = self.load(name)?;
        let Ok(script) = str::from_utf8(&script) else {
            return Err(Fault::Line);
        };
        let mut commands = Vec::new(self.alloc);
        for line in script.lines() {
            commands.push(words_of(self.alloc, line)?)?;
        }
        let mut words = Vec::new(self.alloc);
        for command in &commands {
            words.push(command.as_slice())?;
        }
        print_history(self.alloc, &words, &mut self.store, &mut self.transcript)
    }

    /// Runs the program on each prefix of a file, which then has the name `prefix`, and prints the
    /// results. Neighbouring lengths with the same result are printed together.
    fn run_on_prefixes(&mut self, rest: &str) -> Result<(), Fault> {
        let (name, rest) = parts(rest)?;
        let words = words_of(self.alloc, rest)?;
        let whole = self.load(name)?;
        let mut first = 0;
        let mut last = self.answer_on(&words, b"")?;
        for length in 1..=whole.len() {
            let next = self.answer_on(&words, &whole[..length])?;
            if !next.same(&last) {
                last.print_at(first, length - 1, &mut self.transcript)?;
                first = length;
                last = next;
            }
        }
        last.print_at(first, whole.len(), &mut self.transcript)
    }

    fn answer_on(&mut self, words: &[&str], prefix: &[u8]) -> Result<Answer, Fault> {
        self.store.add("prefix", prefix)?;
        Ok(self.answer_of(words))
    }

    /// Runs the program with the devices of the next run.
    fn answer_of(&mut self, words: &[&str]) -> Answer {
        let devices = self.devices;
        self.devices = Devices::new();
        devices.answer(self.alloc, words, &mut self.store)
    }
}

/// The words of the program: its name, and then these. A word with blanks is between two `'`.
fn words_of(alloc: Global, rest: &str) -> Result<Vec<&str>, AllocError> {
    let mut words = Vec::new(alloc);
    words.push("ssimdesk")?;
    let mut is_one_word = false;
    for part in rest.split('\'') {
        if is_one_word {
            words.push(part)?;
        } else {
            push_words(&mut words, part)?;
        }
        is_one_word = !is_one_word;
    }
    Ok(words)
}

fn push_words<'a>(words: &mut Vec<&'a str>, text: &'a str) -> Result<(), AllocError> {
    for word in text.split_whitespace() {
        words.push(word)?;
    }
    Ok(())
}

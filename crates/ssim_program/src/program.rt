//! The program, from its words to its status.

ghost use Rattle.std.specs.Prelude.{◌≡◌, ◌≤◌, ℕ, Err, IfErr, IfOk, IsTrue, false, map, true};
ghost use Rattle.clap.specs.Words.{kind_of};
ghost use Rattle.ssim_command_line.specs.Line.{Line, Spells};
ghost use Rattle.ssim_command_line.specs.Line.{line_of};
ghost use Rattle.ssim_command_line.specs.Usage.{Names, is_help};
ghost use Rattle.ssim_program.specs.Again.{PrintsItself};
ghost use Rattle.ssim_program.specs.Answers.{answers};
ghost use Rattle.ssim_program.specs.Calls.{Continues};
ghost use Rattle.ssim_program.specs.Runs.{Explained, Obeys, Runs, RunsPlainly, SaysWrong};
ghost use Rattle.ssim_program.specs.Runs.{command_words, is_explained};
ghost use Rattle.ssim_program.specs.World.{Does, PrintsRefusal, world};
ghost use Rattle.ssim_program.specs.internal.Program.{EndsWithoutRequest, IsDone, SaysHelp};
ghost use Rattle.ssim_program.specs.internal.Program.{made_status, says_found};
ghost use Rattle.ssim_program.specs.print.Paper.{Paper, new_paper};

use crate::command::make;
use crate::explain::reason::reason_of;
use crate::finish::finish;
use crate::made::Made;
use crate::print::printer::{Printer, print_all, print_line};
use crate::print::refusal_line::print_refusal;
use crate::refusal::Refusal;
use crate::store::{Hold, Store};
use crate::word::is_word;
use ssim_command_line::{LineFault, Request, parse};
use std::alloc::{AllocError, Global};
use std::io::Write;

/// Runs the program over two writers of std: [`run_on`], with printers over the two writers.
pub fn run<S: Store, O: Write, E: Write>(
    alloc: Global,
    words: &[&str],
    store: &mut S,
    out: &mut O,
    err: &mut E,
) -> u8
    ensures status { result ≤ 3 }

    // The words of a command name it, also after `--explain`.
    ensures plain { (line : Line) → Spells (command_words (map (λ w. w.now) words.now)) line
        → Names (command_words (map (λ w. w.now) words.now)) line }

    // The printers are new, and have what the writers hold.
    ensures runs { (out' err' : Paper) × (device other : ℕ)
        × (out'.taken ≡ O.contents out.new) × (err'.taken ≡ E.contents err.new)
        × Runs (map (λ w. w.now) words.now)
        (world (S.files store.old) (S.failures store.old) (new_paper (O.contents out.old) device))
        (world (S.files store.new) (S.failures store.new) out')
        (new_paper (E.contents err.old) other) err' result }
{
    let mut printed = Printer::new(out);
    let mut reasons = Printer::new(err);
    let status = run_on(alloc, words, store, &mut printed, &mut reasons);
    let Printer {
        writer: out,
        failures: _,
        flushed: _,
    } = printed;
    let Printer {
        writer: err,
        failures: _,
        flushed: _,
    } = reasons;
    // No effect at run time. The proof reads what the writers hold from these uses.
    let _ = &*out;
    let _ = &*err;
    status
}

/// Runs the program on its words, the first of which is its own name. Returns 0 if the command was
/// done, or help was asked for; 1 if it was refused; 2 if the words name no command; 3 if the command
/// was done with `--status` and found something.
///
/// What a command prints goes to `out`, the line of a refusal to `err`, and after it, with `--explain`
/// before the command, what the refusal is about. If `out` fails, it has taken a prefix of what was to
/// be printed. A failure of `err` changes no status.
pub fn run_on<S: Store, O: Write, E: Write>(
    alloc: Global,
    words: &[&str],
    store: &mut S,
    out: &mut Printer<'_, O>,
    err: &mut Printer<'_, E>,
) -> u8
    ensures status { result ≤ 3 }

    // The words of a command name it, also after `--explain`.
    ensures plain { (line : Line) → Spells (command_words (map (λ w. w.now) words.now)) line
        → Names (command_words (map (λ w. w.now) words.now)) line }

    // A command is obeyed: it does what its answer says, one act after another, up to the first that
    // fails. Other words are answered, and no file changes.
    ensures runs { Runs (map (λ w. w.now) words.now)
        (world (S.files store.old) (S.failures store.old) out.old)
        (world (S.files store.new) (S.failures store.new) out.new) err.old err.new result }

    // Both printers still write to the same writers.
    ensures devices { (out.new.device ≡ out.old.device) × (err.new.device ≡ err.old.device) }
{
    if !is_explained(words) {
        return run_plainly(alloc, words, false, store, out, err);
    }
    match command_words(alloc, words) {
        Ok(left) => run_plainly(alloc, &left, true, store, out, err),
        Err(_) => refuse(&Refusal::Memory, err),
    }
}

/// Whether the first word after the program's name is `--explain`.
fn is_explained(words: &[&str]) -> bool
    ensures { result ≡ is_explained (map (λ w. w.now) words.now) }
{
    match words {
        [_, word, ..] => is_word(word.as_bytes(), b"--explain"),
        _ => false,
    }
}

/// The words without the `--explain` before the command.
fn command_words<'w>(alloc: Global, words: &[&'w str]) -> Result<Vec<&'w str>, AllocError>
    requires { is_explained (map (λ w. w.now) words.now) ≡ true }
    ensures { IfOk result
        (λ left. map (λ w. w.now) left.items ≡ command_words (map (λ w. w.now) words.now)) }
{
    let mut left = Vec::with_capacity(alloc, words.len())?;
    if let [program, _, rest @ ..] = words {
        left.push(*program)?;
        left.extend_from_slice(rest)?;
    }
    Ok(left)
}

/// Runs the program on its words, none of which is an `--explain` before the command, and explains a
/// refusal if that is asked for.
fn run_plainly<S: Store, O: Write, E: Write>(
    alloc: Global,
    words: &[&str],
    explained: bool,
    store: &mut S,
    out: &mut Printer<'_, O>,
    err: &mut Printer<'_, E>,
) -> u8
    ensures { (line : Paper) × RunsPlainly (map (λ w. w.now) words.now)
        (world (S.files store.old) (S.failures store.old) out.old)
        (world (S.files store.new) (S.failures store.new) out.new) err.old line result
        × Explained explained result line err.new }
{
    match parse(alloc, words) {
        Ok(request) => obey(alloc, &request, explained, store, out, err),
        Err(fault) => without_request(alloc, &fault, out, err),
    }
}

/// Runs the program on the words of several commands, one after another, whatever the status of each.
/// So the files are those of a history that goes on with one event for each call.
pub fn run_each<S: Store, O: Write, E: Write>(
    alloc: Global,
    commands: &[&[&str]],
    store: &mut S,
    out: &mut Printer<'_, O>,
    err: &mut Printer<'_, E>,
)
    ensures { Continues (map (λ words. map (λ w. w.now) words.now) commands.now)
        (S.files store.old) (S.files store.new) }
{
    for words in commands {
        run_on(alloc, *words, store, out, err);
    }
}

/// Begins a command, does what it asks, and prints the line of a refusal, which is explained if that
/// is asked for.
fn obey<S: Store, O: Write, E: Write>(
    alloc: Global,
    request: &Request<'_>,
    explained: bool,
    store: &mut S,
    out: &mut Printer<'_, O>,
    err: &mut Printer<'_, E>,
) -> u8
    ensures { (line : Paper) × Obeys (line_of request.now)
        (world (S.files store.old) (S.failures store.old) out.old)
        (world (S.files store.new) (S.failures store.new) out.new) err.old line result
        × Explained explained result line err.new }
{
    store.begin();
    match act(alloc, request, store, out) {
        Ok(status) => status,
        Err(refusal) if explained => refuse_explained(alloc, request, &refusal, store, err),
        Err(refusal) => refuse(&refusal, err),
    }
}

/// Does what a command asks. Returns its status.
fn act<S: Store, O: Write>(
    alloc: Global,
    request: &Request<'_>,
    store: &mut S,
    out: &mut Printer<'_, O>,
) -> Result<u8, Refusal>
    requires fresh { IsTrue (S.is_fresh store.now) }
    ensures done { IfOk result (IsDone (line_of request.now)
        (world (S.files store.old) (S.failures store.old) out.old)
        (world (S.files store.new) (S.failures store.new) out.new)) }
    ensures refused { IfErr result (λ refusal.
        Does (answers (line_of request.now) (S.files store.old))
        (world (S.files store.old) (S.failures store.old) out.old)
        (world (S.files store.new) (S.failures store.new) out.new) (Err refusal)) }
    ensures again { IfOk result
        (λ _. PrintsItself (line_of request.now) out.old.taken out.new.taken) }
{
    let made = make(alloc, request, store)?;
    let status = status_of(&made);
    finish(alloc, made, store, out)?;
    Ok(status)
}

/// The status of a command that is done, by what it has made.
fn status_of<H: Hold + Drop>(made: &Made<'_, H>) -> u8
    ensures { result ≡ made_status made.now }
{
    if says_found(made) { 3 } else { 0 }
}

/// Whether the status is to say that something was found.
fn says_found<H: Hold + Drop>(made: &Made<'_, H>) -> bool
    ensures { result ≡ says_found made.now }
{
    match made {
        Made::Reported { found, .. } => *found,
        Made::Printed { found, .. } => *found,
        _ => false,
    }
}

/// Prints the line of a refusal. It allocates nothing, so each refusal has its own line. Returns 1.
fn refuse<P: Write>(refusal: &Refusal, err: &mut Printer<'_, P>) -> u8
    ensures status { result ≡ 1 }
    ensures printed { PrintsRefusal refusal.now err.old err.new }
{
    let _ = print_refusal(refusal, err);
    1
}

/// Prints the line of a refusal, and then what it is about. Returns 1.
fn refuse_explained<S: Store, P: Write>(
    alloc: Global,
    request: &Request<'_>,
    refusal: &Refusal,
    store: &mut S,
    err: &mut Printer<'_, P>,
) -> u8
    ensures status { result ≡ 1 }
    ensures printed { (line : Paper) × PrintsRefusal refusal.now err.old line
        × Explained true 1 line err.new }
    ensures same { S.files store.new ≡ S.files store.old }
    ensures counted { S.failures store.new ≡ S.failures store.old }
{
    let printed = print_refusal(refusal, err);
    if printed.is_ok() {
        if let Ok(lines) = reason_of(alloc, request, refusal, store) {
            print_line(&lines, err);
        }
    }
    1
}

/// Prints help on `out`, with status 0, or what is wrong with the words on `err`, with 2.
fn without_request<O: Write, E: Write>(
    alloc: Global,
    fault: &LineFault,
    out: &mut Printer<'_, O>,
    err: &mut Printer<'_, E>,
) -> u8
    ensures { EndsWithoutRequest fault.now out.old out.new err.old err.new result }
{
    match fault {
        LineFault::Memory => refuse(&Refusal::Memory, err),
        LineFault::Shown(error) => show(alloc, error, out, err),
        LineFault::NoCommand => {
            print_line(b"error: the words name no command\n", err);
            2
        }
    }
}

/// Prints what `clap` has to say: help on `out`, with status 0, and all else on `err`, with 2.
fn show<O: Write, E: Write>(
    alloc: Global,
    error: &clap::Error,
    out: &mut Printer<'_, O>,
    err: &mut Printer<'_, E>,
) -> u8
    ensures help { is_help (kind_of error.now) ≡ true
        → SaysHelp out.old out.new err.old err.new result }
    ensures wrong { is_help (kind_of error.now) ≡ false
        → (result ≡ 2) × SaysWrong out.old out.new err.old err.new }
{
    let mut text = Vec::new(alloc);
    let shown = write!(text, "{error}");
    if error.use_stderr() {
        print_line(&text, err);
        return 2;
    }
    if shown.is_err() {
        return refuse(&Refusal::Memory, err);
    }
    match print_all(out, &text) {
        Ok(()) => 0,
        Err(refusal) => refuse(&refusal, err),
    }
}

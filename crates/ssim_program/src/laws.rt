//! What holds of the bytes that the commands write, and of desk files after any commands.

ghost use Rattle.std.specs.Prelude.{Bool, List, None, Some, false};
ghost use Rattle.ssim_command_line.specs.Line.{Blame, Board, Calendar, Carry, Check, ChoiceTexts, Diff};
ghost use Rattle.ssim_command_line.specs.Line.{Convert, Export, Findings, Select, SpanTexts};
ghost use Rattle.ssim_command_line.specs.Line.{History, Info, Listing, Page, Problems, Show, Text, Texts};
ghost use Rattle.ssim_command_line.specs.Line.{Sql, Stations, Tidy, Withdraw};
ghost use Rattle.ssim_command_line.specs.declared.board_form.BoardForm.{BoardForm};
ghost use Rattle.ssim_command_line.specs.declared.command_line.DiffForm.{DiffForm};
ghost use Rattle.ssim_command_line.specs.declared.command_line.FindingsForm.{FindingsForm};
ghost use Rattle.ssim_command_line.specs.declared.command_line.ListForm.{ListForm};
ghost use Rattle.ssim_command_line.specs.declared.command_line.ModeWord.{ModeWord};
ghost use Rattle.ssim_command_line.specs.declared.command_line.ProblemsForm.{ProblemsForm};
ghost use Rattle.ssim_program.specs.Again.{TidiesOnce};
ghost use Rattle.ssim_program.specs.Calls.{CommandsAreEvents};
ghost use Rattle.ssim_program.specs.Conflicts.{CarryMeetsTwo, MergeMeetsTwo, MergeSinceMeetsTwo};
ghost use Rattle.ssim_program.specs.Conflicts.{ReceiveMeetsTwo, TakeMeetsTwo};
ghost use Rattle.ssim_program.specs.EqualFiles.{CarriesAsMerges, DoesTheSame, DoesTheSameOfPairs};
ghost use Rattle.ssim_program.specs.EqualFiles.{MakesTheSame, PrintsTheSame, PrintsTheSameOfPairs};
ghost use Rattle.ssim_program.specs.MergingSince.{SinceCommutes, SinceIsMerging, SinceItself};
ghost use Rattle.ssim_program.specs.Messages.{TextsAreMail};
ghost use Rattle.ssim_program.specs.Offices.{HoldsWhatWasBrought, OfficesAgree};
ghost use Rattle.ssim_program.specs.FirstProblem.{RefusalIsFirstProblem};
ghost use Rattle.ssim_program.specs.Receiving.{RefusedTextsAreMail};
ghost use Rattle.ssim_program.specs.Turns.{HoldsWhatCameInTurn, NothingHeldIsLost};
ghost use Rattle.ssim_program.specs.Turns.{NothingTakenIsLost, TakesTurns};
ghost use Rattle.ssim_program.specs.print.Refusal.{MemoryHasOneLine};
ghost use Rattle.ssim_program.specs.rehearse.Verdict.{EndsWithSame};
// The worked examples, which are computed: a false one is an error in this file.
ghost use Rattle.ssim_program.specs.examples.Histories;
ghost use Rattle.ssim_program.specs.examples.Scripts;
ghost use Rattle.ssim_program.specs.examples.Turns;

use ssim_base::laws::{
    same_bytes_same_base, same_bytes_same_problems, same_bytes_same_rows, written_bases_are_read,
};
use ssim_desk::laws::{any_two_desks_agree, no_two_desks_have_one_file};
use ssim_mailbox::texts_read_again;
use ssim_outbox::laws::mailboxes_read;
use ssim_records::frames_are_one;
use ssim_text::laws::{canonical_reads_back, one_message, one_reference};

/// Of a file that is the export of its own base, as all that `tidy` wrote is, `tidy` makes the same
/// bytes.
pub fn tidied_once()
    ensures { TidiesOnce }
{
    written_bases_are_read();
}

/// Two offices have the same desk file, byte for byte, if their desks began by `start` from the
/// same data set and the same station table and the same messages were brought to both, by texts
/// that `take` took or `receive` accepted or by `merge`, in any order and however often. Each desk
/// file that can be read holds the messages that were brought to it, and no others. A message that
/// `withdraw` took out of a desk file does not count as brought to it until it is brought again.
pub fn offices_agree()
    ensures agree { OfficesAgree }
    ensures holds { HoldsWhatWasBrought }
{
    one_message();
    canonical_reads_back();
    one_reference();
    no_two_desks_have_one_file();
    same_bytes_same_base();
    same_bytes_same_rows();
}

/// Commands that run at once and hold the files that they keep take turns: each replaces the very
/// file that it read. So a desk file holds the messages that were brought to it, one command after
/// another, and no others; and no message that it held or that a command took is lost, until a
/// `withdraw` names it or a file is put there that was not made of this one. That no two commands hold
/// one file is a premise.
pub fn nothing_taken_is_lost()
    ensures order { TakesTurns }
    ensures holds { HoldsWhatCameInTurn }
    ensures held { NothingHeldIsLost }
    ensures taken { NothingTakenIsLost }
{
    offices_agree();
}

/// Of two equal desk files `texts`, `findings` and `export` do the same. They print the same bytes:
/// the chosen messages, what the chosen sub-messages found, and the chapter 7 data set. Or they are
/// refused for the same: if one is refused and the other is not, memory ran out (90). `withdraw`
/// prints the same: what became of each reference. So does `carry` of two pairs of equal desk files:
/// what became of each message. Nothing is said of these two with `--effects`.
pub fn equal_desk_files_do_the_same()
    ensures texts { (csv : Bool) (span : SpanTexts) (flights : List Text)
        → DoesTheSame (λ file. Texts csv span file flights) }
    ensures withdraw { (out : Text) (references : List Text)
        → PrintsTheSame (λ file. Withdraw false file out references) }
    ensures carry { (out : Text) → PrintsTheSameOfPairs
        (λ desk other. Carry false desk other out) }
    ensures findings { (form : FindingsForm) (span : SpanTexts) (flights : List Text)
        → DoesTheSame (λ file. Findings form span file flights) }
    ensures export { DoesTheSame Export }
{
    one_reference();
    no_two_desks_have_one_file();
}

/// Of two equal desk files, or of two equal data sets, `show`, `history`, `blame`, `list`, `board`,
/// `calendar`, `info`, `stations`, `sql`, `page` and `select` do the same: they print the same bytes, or are
/// refused for the same. So do `diff` and `page` of two pairs of equal files. `convert` keeps the same
/// data set, and prints the same.
pub fn equal_timetables_do_the_same()
    ensures show { (flight : Text) (words : List Text)
        → DoesTheSame (λ file. Show file flight words) }
    ensures history { (csv : Bool) (flight : Text) (words : List Text)
        → DoesTheSame (λ file. History csv file flight words) }
    ensures blame { (csv : Bool) (flights : List Text) → DoesTheSame (λ file. Blame csv file flights) }
    ensures board { (form : BoardForm) (station date : Text)
        → DoesTheSame (λ file. Board form file station date) }
    ensures list { (form : ListForm) (words : ChoiceTexts) (flights : List Text)
        → DoesTheSame (λ file. Listing form words file flights) }
    ensures calendar { (words : ChoiceTexts) (flights : List Text)
        → DoesTheSame (λ file. Calendar words file flights) }
    ensures info { DoesTheSame Info }
    ensures stations { DoesTheSame Stations }
    ensures sql { DoesTheSame Sql }
    ensures page { DoesTheSame (Page None) }
    ensures select { (words : ChoiceTexts) (flights : List Text)
        → DoesTheSame (λ file. Select words file flights) }
    ensures convert { (mode : ModeWord) (out : Text)
        → MakesTheSame (λ file. Convert mode file out) }
    ensures diff { (form : DiffForm) (words : ChoiceTexts) (flights : List Text)
        → DoesTheSameOfPairs (λ from to. Diff form words from to flights) }
    ensures changed_page { DoesTheSameOfPairs (λ from. Page (Some from)) }
{
    frames_are_one();
    no_two_desks_have_one_file();
    same_bytes_same_base();
}

/// Of two equal data sets `check`, `problems` and `tidy` do the same: they print the same notes and
/// summary, the same invalid records, and the same canonical export, or are refused for the same
/// invalid record.
pub fn equal_data_sets_do_the_same()
    ensures check { DoesTheSame Check }
    ensures problems { (form : ProblemsForm) → DoesTheSame (λ file. Problems form file) }
    ensures tidy { DoesTheSame Tidy }
{
    frames_are_one();
    same_bytes_same_base();
    same_bytes_same_problems();
}

/// Of two desk files over one base `carry` keeps what `merge` keeps, byte for byte, or both are
/// refused for the same.
pub fn carrying_is_merging()
    ensures { CarriesAsMerges }
{
    no_two_desks_have_one_file();
}

/// A script runs texts and merges on several desks. If the same messages reached all of them, by
/// texts or by merges, `rehearse` prints `same` as its last line. The one exception is a run in
/// which a line `desk d refused 90 Memory` says that there was no memory for an export.
pub fn rehearsals_end_with_same()
    ensures { EndsWithSame }
{
    one_message();
    any_two_desks_agree();
}

/// The refusal that `check` prints of a data set is the first problem that `problems` prints. Of a
/// valid data set `problems` prints none.
pub fn refusal_is_first_problem()
    ensures { RefusalIsFirstProblem }
{
    frames_are_one();
}

/// What `merge --since` leaves: the same whichever of the two is named first; what `merge` leaves if
/// nothing was withdrawn; and what this desk holds if the other one is the older one.
pub fn merges_since_an_older_desk()
    ensures commutes { SinceCommutes }
    ensures merges { SinceIsMerging }
    ensures itself { SinceItself }
{}

/// If `take`, `merge`, `merge --since` or `carry`, or a text of `receive`, is refused for a conflict
/// (60), two different messages have its reference, of those that the desks hold and the texts say. So if no
/// originator gives two messages one reference, none is refused so.
pub fn conflicts_have_two_messages()
    ensures take { TakeMeetsTwo }
    ensures merge { MergeMeetsTwo }
    ensures since { MergeSinceMeetsTwo }
    ensures carry { CarryMeetsTwo }
    ensures receive { ReceiveMeetsTwo }
{
    one_message();
}

/// What `texts` prints is a mailbox with the texts of the messages and no others, in order, if no line
/// of a free text is `NNNN`, `SSM` or `ASM` or begins with a dot.
pub fn printed_texts_are_mail()
    ensures { TextsAreMail }
{
    mailboxes_read();
}

/// The refused texts that `receive` keeps, each with a line `NNNN` below it, are a mailbox of the
/// texts that were refused and no others, in order and byte for byte. So each is tried again if the
/// file is received.
pub fn refused_texts_are_mail()
    ensures { RefusedTextsAreMail }
{
    texts_read_again();
}

/// A refusal with the number 90 has the line `refused 90 Memory`, whichever fault it wraps.
pub fn memory_has_one_line()
    ensures { MemoryHasOneLine }
{}

/// Each call of the program on the words of a command is one event of a history of files, whatever its
/// status: the command kept its desk; or `receive` kept the refused texts alone; or the messages of
/// `publish` or the data set of `convert` came; or no file changed.
pub fn commands_are_events()
    ensures { CommandsAreEvents }
{}

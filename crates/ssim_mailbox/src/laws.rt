//! Laws of mailboxes.
ghost use Rattle.ssim_mailbox.specs.Again.{TextsReadAgain};
ghost use Rattle.ssim_mailbox.specs.examples.Mailboxes.{WorkedMailboxes};

/// Three mailboxes worked out by hand have the texts that the definitions name.
pub fn worked_mailboxes()
    ensures { WorkedMailboxes }
{}

/// Texts of any mailboxes, each with a line `NNNN` below it, are a mailbox of exactly these texts, in
/// order and byte for byte.
pub fn texts_read_again()
    ensures { TextsReadAgain }
{}

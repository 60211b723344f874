//! Laws of the grammar.
ghost use Rattle.ssim_text.specs.Decoder.{OneRefusal};
ghost use Rattle.ssim_text.specs.Grammar.{OneMessage};
ghost use Rattle.ssim_text.specs.Reference.{OneReference};
ghost use Rattle.ssim_text.specs.Spelling.{CanonicalReadsBack, EqualWhereWrittenEqual};
ghost use Rattle.ssim_text.specs.examples.Texts.{WorkedTexts};

/// No text spells two messages.
pub fn one_message()
    ensures { OneMessage }
{}

/// No text spells two references.
pub fn one_reference()
    ensures { OneReference }
{}

/// A text that spells no message has one fault, at one line. So all refusals of the text by
/// [`decode`](crate::decode), but for memory, are equal.
pub fn one_refusal()
    ensures { OneRefusal }
{}

/// The canonical text of a message spells it: what is encoded is decoded to the same message.
pub fn canonical_reads_back()
    ensures { CanonicalReadsBack }
{}

/// Two texts spell equal messages exactly if the canonical texts of the messages are equal.
pub fn equal_where_written_equal()
    ensures { EqualWhereWrittenEqual }
{}

/// Ten texts worked out by hand spell their messages and are the canonical texts of them.
pub fn worked_texts()
    ensures { WorkedTexts }
{}

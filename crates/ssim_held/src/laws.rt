//! What holds of any desk files, over the definition of their bytes.

ghost use Rattle.ssim_held.specs.File.{NoTwoDesks, OpensAsSaved, SavesAsOpened};

use ssim_base::laws::saved_records_are_read;
use ssim_text::laws::equal_where_written_equal;

/// Bytes are the desk file of at most one base with at most one list of held messages, whatever the
/// version.
pub fn no_two_desks_have_one_file()
    ensures { NoTwoDesks }
{
    saved_records_are_read();
    equal_where_written_equal();
}

/// A desk opened from another desk's file has the same base and holds the same messages. An opened
/// desk is saved as the bytes that it was opened from, except that a first line of version 1
/// becomes the first line of version 2.
pub fn opened_is_saved()
    ensures opens { OpensAsSaved }
    ensures saves { SavesAsOpened }
{
    no_two_desks_have_one_file();
}

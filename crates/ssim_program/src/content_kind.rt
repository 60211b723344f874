//! What a command keeps in a file, and which files that may replace.

ghost use Rattle.std.specs.Prelude.{◌≡◌};
ghost use Rattle.ssim_program.specs.Places.{begins_data_set, begins_desk_file, replaces};

/// The bytes with which a desk file begins.
const DESK_FILE: &[u8] = b"SSIMDESK ";

/// The bytes with which a data set begins: its header record, columns 1 to 35.
const DATA_SET: &[u8] = b"1AIRLINE STANDARD SCHEDULE DATA SET";

/// What a command keeps in a file. A file that is there is replaced only by one of its kind.
#[derive(Clone, Copy, Debug, PartialEq, Eq)]
pub enum ContentKind {
    /// A desk file. It replaces a desk file or an empty file.
    DeskFile,
    /// A data set. It replaces a data set or an empty file.
    DataSet,
    /// Messages. They replace any file but a desk file and a data set.
    Messages,
    /// Refused texts. They replace an empty file alone.
    RefusedTexts,
}

impl ContentKind {
    /// Whether this may replace a file of these bytes. The first 35 of them decide it.
    pub fn replaces(self, bytes: &[u8]) -> bool
        ensures { result ≡ replaces self bytes.now }
    {
        match self {
            ContentKind::DeskFile => bytes.is_empty() || begins_desk_file(bytes),
            ContentKind::DataSet => bytes.is_empty() || begins_data_set(bytes),
            ContentKind::Messages => !begins_desk_file(bytes) && !begins_data_set(bytes),
            ContentKind::RefusedTexts => bytes.is_empty(),
        }
    }
}

fn begins_desk_file(bytes: &[u8]) -> bool
    ensures { result ≡ begins_desk_file bytes.now }
{
    bytes.starts_with(DESK_FILE)
}

fn begins_data_set(bytes: &[u8]) -> bool
    ensures { result ≡ begins_data_set bytes.now }
{
    bytes.starts_with(DATA_SET)
}

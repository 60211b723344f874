//! Notes on a station table, from one leg record.
use ssim_base::Stations;
use ssim_overview::{NoteKind, StationNote, station_notes};
use ssim_records::read_record;
use ssim_vectors::LEG;
use std::test::Fail;

/// Whether a note is on all 210 dates of the leg.
fn is_of_season(note: &StationNote, station: &[u8; 3], kind: NoteKind) -> bool {
    note.station.write() == *station
        && note.kind == kind
        && note.dates == 210
        && note.first.number() == 9_220
        && note.last.number() == 9_429
}

/// Whether the notes are that LHR has another variation, and ZRH no row.
fn are_notes(notes: &[StationNote]) -> bool {
    match (notes.get(0), notes.get(1)) {
        (Some(one), Some(other)) => {
            notes.len() == 2
                && is_of_season(one, b"LHR", NoteKind::Other)
                && is_of_season(other, b"ZRH", NoteKind::Missing)
        }
        _ => false,
    }
}

#[test]
fn notes_on_a_table(rt: HostRuntime) -> Result<(), Fail> {
    let leg = read_record(LEG)?;
    let table = Stations::read(rt.alloc(), b"LHR 30MAR25 25OCT25 +0000\n")?;
    let notes = station_notes(rt.alloc(), &[leg], table.rows())?;
    assert!(rt; are_notes(&notes));
    Ok(())
}

//! Stations.

ghost use Rattle.std.specs.Prelude.{◌≡◌, IfNone, IfOk, IfSome, false, map, option_map, true};
ghost use Rattle.ssim_values.specs.Station.{is_station};
ghost use Rattle.ssim_words.specs.Several.{each_read};
ghost use Rattle.ssim_words.specs.Station as defined;
ghost use Rattle.ssim_words.specs.Typed.{typed};

use crate::letters::typed;
use ssim_values::{Memory, Station};
use std::alloc::Global;

/// The station that a word is: three letters.
pub fn typed_station(alloc: Global, word: &[u8]) -> Result<Option<Station>, Memory>
    ensures some { IfOk result (λ found. IfSome found
        (λ station. (station ≡ typed word.now) × (is_station (typed word.now) ≡ true))) }
    ensures none { IfOk result (λ found. IfNone found (is_station (typed word.now) ≡ false)) }
{
    let letters = typed(alloc, word)?;
    let Some(text) = letters.as_array() else {
        return Ok(None);
    };
    Ok(Station::parse(text).ok())
}

/// The stations that the words are, in their order; nothing if one of them is none.
pub fn typed_stations(alloc: Global, words: &[&str]) -> Result<Option<Vec<Station>>, Memory>
    ensures { IfOk result (λ found. option_map (λ stations. stations.items) found
        ≡ each_read defined.typed_station (map (λ word. word.now) words.now)) }
{
    let mut stations = Vec::with_capacity(alloc, words.len())?;
    for word in words {
        let Some(station) = typed_station(alloc, word.as_bytes())? else {
            return Ok(None);
        };
        stations.push(station)?;
    }
    Ok(Some(stations))
}

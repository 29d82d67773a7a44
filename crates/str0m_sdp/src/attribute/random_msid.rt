//! Ids of streams and tracks that a generator draws.
ghost use Rattle.std.specs.Prelude.{◌≡◌, ◌≤◌, ◌<◌, IfOk, OnOk, OnErr, [], string_bytes, string_capacity};
ghost use Rattle.str0m_sdp.specs.attribute.RandomMsid.{after_msid_drawn_words, msid_letter_of, random_id};

use crate::attribute::msid::Msid;
use rand_core::Rng;
use std::alloc::{AllocError, Global};
use str0m_values::{Boxed, Name, Text};

const MSID_LETTERS: [u8; 62] = *b"0123456789ABCDEFGHIJKLMNOPQRSTUVWXYZabcdefghijklmnopqrstuvwxyz";

/// How many letters an id has.
const MSID_ID_LENGTH: usize = 30;

/// The letter that a word stands for.
fn msid_letter(word: u32) -> char
    ensures value { result ≡ msid_letter_of word }
    ensures ascii { result < 128 }
{
    char::from(MSID_LETTERS[(word % 62) as usize])
}

/// Draws an id into a text that has room for it.
fn draw_msid_id<R: Rng>(id: &mut String, rng: &mut R)
    requires empty { string_bytes id.old ≡ [] }
    requires room { 30 ≤ string_capacity id.old }
    ensures id { string_bytes id.new ≡ random_id (R.stream rng.old) }
    ensures stream { R.stream rng.new ≡ after_msid_drawn_words 30 (R.stream rng.old) }
{
    for _i in 0..MSID_ID_LENGTH {
        let letter = msid_letter(rng.next_u32());
        id.push(letter).unwrap();
    }
}

impl Msid {
    /// A random stream and a random track in it (RFC 8830, section 2).
    ///
    /// Each id has 30 letters of `0` to `9`, `A` to `Z` and `a` to `z`: a word of 32 bits from the
    /// generator, modulo 62, names each. The stream's are drawn before the track's. Where memory is
    /// refused, no word is drawn.
    pub fn random<R: Rng>(alloc: Global, rng: &mut R) -> Result<Msid, AllocError>
        ensures names { IfOk result (λ msid. msid ≡ record {
          stream_id = random_id (R.stream rng.old);
          track_id = random_id (after_msid_drawn_words 30 (R.stream rng.old));
        }) }
        ensures stream { OnOk result (R.stream rng.new ≡ after_msid_drawn_words 60 (R.stream rng.old)) }
        ensures refused { OnErr result (rng.new ≡ rng.old) }
    {
        // Room for all comes first, so that no word is lost to a refusal.
        let mut stream_id = String::with_capacity(alloc, MSID_ID_LENGTH)?;
        let mut track_id = String::with_capacity(alloc, MSID_ID_LENGTH)?;
        let room = Boxed::new(alloc, Text::empty())?;
        draw_msid_id(&mut stream_id, rng);
        draw_msid_id(&mut track_id, rng);
        Ok(Msid {
            stream_id: Name::in_room(room, Text::from(stream_id)),
            track_id: Text::from(track_id),
        })
    }
}

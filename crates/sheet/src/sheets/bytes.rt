// A sheet in bytes: formulas of eight bytes, rules of one, and a trailer of four.
ghost use Rattle.std.specs.Prelude.{◌≡◌, ◌+◌, ◌*◌, ◌<◌, ◌≤◌, ◌++◌, length, map, take, drop, Ok};
ghost use Rattle.std.specs.List.{flat_map};
ghost use Rattle.sheet.specs.Bytes as layout;
ghost use Rattle.sheet.specs.Conditions.{Conditions, server};
ghost use Rattle.sheet.specs.Contents as contents;

use super::Sheet;
use crate::answers::{ReadRefusal, WriteRefusal};
use crate::fields::Fields;

// How many formulas and rules sound bytes hold.
fn counts(bytes: &[u8]) -> Result<(usize, usize), ReadRefusal>
    ensures { result ≡ layout.counts bytes.now }
{
    let (items, trailer) = bytes.split_last_chunk::<4>().ok_or(ReadRefusal::Length)?;
    let [formulas, rules, high, low] = *trailer;
    let formulas = usize::from(formulas);
    let rules = usize::from(rules);
    if items.len() != 8 * formulas + rules {
        return Err(ReadRefusal::Length);
    }
    if usize::from(u16::from_be_bytes([high, low])) != 8 * formulas {
        return Err(ReadRefusal::Trailer);
    }
    Ok((formulas, rules))
}

fn trailer(formulas: u8, rules: u8) -> [u8; 4]
    ensures { result ≡ layout.trailer formulas rules }
{
    let [high, low] = (8 * u16::from(formulas)).to_be_bytes();
    [formulas, rules, high, low]
}

// Writes a piece at a place; write_formulas tells why by place.
fn put(out: &mut [u8], at: usize, piece: &[u8])
    requires { at + length piece.now ≤ length out.old }
    ensures { out.new ≡ take at out.old ++ (piece.now ++ drop (at + length piece.now) out.old) }
{
    out[at..at + piece.len()].copy_from_slice(piece);
}

impl Sheet {
    fn clear(&mut self)
        ensures { contents.of self.new ≡ contents.empty }
    {
        self.formulas.clear();
        self.reaches.clear();
        self.rules.clear();
        self.cells = 0;
    }

    // Adds the formulas that bytes hold, eight each, until one is refused.
    fn add_formulas(&mut self, formulas: &[[u8; 8]]) -> Result<(), ReadRefusal>
        requires { length formulas.now < 256 }
        ensures { layout.Brought (layout.add_formulas server 0 (contents.of self.old) (map layout.fields_in formulas.now)) result (contents.of self.new) }
    {
        for (i, bytes) in formulas.iter().enumerate() {
            let place = i as u16; // it fits: a checked conversion would have a case that never comes
            self.add(Fields::from(*bytes))
                .map_err(|refusal| ReadRefusal::Item { place, refusal })?;
        }
        Ok(())
    }

    // Adds the rules, the first of which is the item at a place, until one is refused. One loop for
    // both would take the adding as a closure, whose clause over the sheet before and after is
    // longer than a loop.
    fn add_rules(&mut self, rules: &[u8], first: usize) -> Result<(), ReadRefusal>
        requires first { first < 256 }
        requires few { length rules.now < 256 }
        ensures { layout.Brought (layout.add_rules server first (contents.of self.old) rules.now) result (contents.of self.new) }
    {
        for (i, n) in rules.iter().enumerate() {
            let place = (first + i) as u16; // it fits, as above
            self.add_rule(*n)
                .map_err(|refusal| ReadRefusal::Item { place, refusal })?;
        }
        Ok(())
    }

    // Adds what sound bytes hold to an empty sheet, until an item is refused.
    fn add_all(&mut self, bytes: &[u8]) -> Result<(), ReadRefusal>
        requires { contents.of self.old ≡ contents.empty }
        ensures { layout.Brought (layout.reading server bytes.now) result (contents.of self.new) }
    {
        let (formulas, rules) = counts(bytes)?;
        let start = 8 * formulas;
        let (chunks, _) = bytes[..start].as_chunks();
        self.add_formulas(chunks)?;
        self.add_rules(&bytes[start..start + rules], formulas)
    }

    // Reads a sheet from its bytes. What was on the sheet is gone, also where the bytes are
    // refused. Bytes that are read are those of the sheet that is read, and the bytes of every
    // sheet are read.
    #[tactic(auto, using(crate::proofs::Whole::refused_value, crate::proofs::Whole::refused_finds, crate::proofs::Whole::done_value, crate::proofs::Whole::done_back, crate::proofs::Whole::done_finds))]
    pub fn read(&mut self, bytes: &[u8]) -> Result<(), ReadRefusal>
        ensures value { layout.Received (layout.reading server bytes.now) result (contents.of self.new) }
        ensures back { result ≡ Ok tt → layout.bytes_of (contents.of self.new) ≡ bytes.now }
        ensures finds { (c : contents.Contents) → Conditions server c.formulas c.rules → layout.bytes_of c ≡ bytes.now → (result ≡ Ok tt) × (contents.of self.new ≡ c) }
    {
        self.clear();
        let answer = self.add_all(bytes);
        if answer.is_err() {
            self.clear();
        }
        answer
    }

    // Writes the formulas to the front of a buffer that has room for them. Each is put at its
    // place. Tried: as_chunks_mut, whose contract says nothing of what the buffer ends as.
    fn write_formulas(&self, out: &mut [u8])
        requires { 8 * length (contents.of self.now).formulas ≤ length out.old }
        ensures { out.new ≡ flat_map layout.formula_bytes (contents.of self.now).formulas ++ drop (8 * length (contents.of self.now).formulas) out.old }
    {
        for (i, formula) in self.formulas.iter().enumerate() {
            let bytes: [u8; 8] = Fields::from(*formula).into();
            put(out, 8 * i, &bytes);
        }
    }

    // Writes the sheet's bytes to the front of a buffer and answers how many they are. Read again,
    // they are this sheet. The buffer is the caller's, since nothing allocates after a sheet is
    // made.
    pub fn write(&self, out: &mut [u8]) -> Result<usize, WriteRefusal>
        ensures value { layout.Written (layout.bytes_of (contents.of self.now)) out.old result out.new }
        ensures reads { layout.reading server (layout.bytes_of (contents.of self.now)) ≡ Ok (contents.of self.now) }
    {
        let formulas = self.formulas.len();
        let rules = self.rules.len();
        let start = 8 * formulas;
        let length = start + rules + 4;
        if out.len() < length {
            return Err(WriteRefusal::Short);
        }
        self.write_formulas(out);
        put(out, start, self.rules.as_slice());
        // the two numbers fit, as above
        put(out, start + rules, &trailer(formulas as u8, rules as u8));
        Ok(length)
    }
}

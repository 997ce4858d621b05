// Scales for the judge.
use scale::{Plain, Refusal};
use std::test::Fail;

pub(super) fn limits() -> Result<[Plain; 8], Fail> {
    Ok([Plain::limit(2)?; 8])
}

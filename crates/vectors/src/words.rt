// Bytes from the word that stands for them.
ghost use Rattle.hex.specs.Hex.{decode_of};
ghost use Rattle.std.specs.Char.{is_ascii_uppercase};
ghost use Rattle.std.specs.List.{list_any};
ghost use Rattle.std.specs.Prelude.{◌≡◌, [], ◌⊎◌, false, codes, IfSome, IfOk};

use std::alloc::{AllocError, Global};

// Whether a word has a letter in upper case.
fn has_upper_case(word: &[u8]) -> bool
    ensures { result ≡ list_any is_ascii_uppercase word.now }
{
    word.iter().any(|c| c.is_ascii_uppercase())
}

// The bytes of a word, if it is one: two lower-case digits for each, or `-` for none.
pub fn unhex(heap: Global, word: &str) -> Result<Option<Vec<u8>>, AllocError>
    ensures bytes { IfOk result (λ o. IfSome o (λ v. ((word.now ≡ codes "-") × (v.items ≡ [])) ⊎ (decode_of word.now ≡ Ok v.items))) }
    ensures lower { IfOk result (λ o. IfSome o (λ _. list_any is_ascii_uppercase word.now ≡ false)) }
{
    if word == "-" {
        return Ok(Some(Vec::new(heap)));
    }
    if has_upper_case(word.as_bytes()) {
        return Ok(None);
    }
    let mut bytes = vec![in heap; 0u8; word.len() / 2]?;
    let decoded = hex::decode_to_slice(word, &mut bytes);
    Ok(decoded.is_ok().then_some(bytes))
}

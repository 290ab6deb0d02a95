// The words of the input.
ghost use Rattle.std.specs.Prelude.{◌≡◌, ◌/◌, ◌%◌, ◌≤◌, ◌↔◌, length, vec_capacity, IsOk, OnOk, IfErr};
ghost use Rattle.console.specs.Response.{words as words_of};

use base::Refusal;

// Puts the words of the bytes in place of what was there, or refuses bytes that are no whole words.
pub(crate) fn read_words(bytes: &[u8], words: &mut Vec<u64>) -> Result<(), Refusal>
    requires { length bytes.now / 8 ≤ vec_capacity words.old }
    ensures variant { IsOk result ↔ (length bytes.now % 8 ≡ 0) }
    ensures words { OnOk result (words.new.items ≡ words_of bytes.now) }
    ensures refusal { IfErr result (λ r. r ≡ Refusal.OddLength) }
{
    let (chunks, rest) = bytes.as_chunks::<8>();
    if !rest.is_empty() {
        return Err(Refusal::OddLength);
    }
    words.clear();
    for chunk in chunks {
        words.push_reserved(u64::from_be_bytes(*chunk));
    }
    Ok(())
}

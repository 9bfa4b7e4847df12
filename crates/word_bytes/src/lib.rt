// Words from bytes, high byte first. No input or output.
#![tactic(auto)]

ghost use Rattle.std.specs.Prelude.{◌≡◌, ◌++◌, ◌≤◌, min, length, take, drop};
ghost use Rattle.word_bytes.specs.Words.{whole_words};

// The whole words of a run of bytes, as many as fit.
pub fn assemble(bytes: &[u8], words: &mut [u32]) -> usize
    ensures value { result ≡ min (length words.old) (length (whole_words bytes.now)) }
    ensures words_after { words.new ≡ take result (whole_words bytes.now) ++ drop result words.old }
    ensures upper_bound { (result ≤ length words.new) × (result ≡ length (take result words.new)) }
    ensures words_after_2 { take result words.new ≡ take (length words.old) (whole_words bytes.now) }
{
    let (chunks, _) = bytes.as_chunks::<4>();
    let n = chunks.len().min(words.len());
    for (i, chunk) in chunks[..n].iter().enumerate() {
        words[i] = u32::from_be_bytes(*chunk);
    }
    n
}

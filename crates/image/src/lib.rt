// The image of a meter: 32-bit words that hold its depth, its width, and every counter at its layout.
#![tactic(auto)]

ghost use Rattle.std.specs.Prelude.{◌≡◌, ◌≤◌, length};
ghost use Rattle.image_format.specs.Write.{written};
ghost use Rattle.image_format.specs.Read.{taken};

use answer::Answer;

// Fills `words` with the image of a meter.
pub fn write(d: usize, w: usize, memory: &[u8], words: &mut [u32]) -> Answer
    ensures value { result ≡ (written d w memory.now words.old).answer }
    ensures words_after { words.new ≡ (written d w memory.now words.old).words }
{
    if let Err(why) = geometry::check_shape(d, w, memory.len()) {
        return answer::refused(why.number());
    }
    if !image_size::rows_valid(memory, d, w) {
        return answer::refused(answer::INVALID_CONTENT);
    }
    let n = image_size::table_size(memory, w);
    let sizes = image_format::size_table(n);
    let count = image_size::rows_size(memory, d, w, &sizes[0..n]) + 2;
    if words.len() < count {
        return answer::refused(answer::TOO_FEW_WORDS);
    }
    let codes = image_format::code_table(n);
    // all layout codes or none, as with the merge bytes
    let m = n * 26 / 128;
    let fields = image_format::field_table(m);
    image_writer::put_image(words, memory, d, w, &codes[0..n], &fields[0..17 * m]);
    answer::accepted(count as u64)
}

// Restores a meter from the words of its image.
pub fn read(d: usize, w: usize, memory: &mut [u8], words: &[u32]) -> Answer
    ensures value { result ≡ (taken d w memory.old words.now).answer }
    ensures memory_after { memory.new ≡ (taken d w memory.old words.now).memory }
    ensures position_in_bounds { result.position ≤ length words.now }
{
    if let Err(why) = geometry::check_shape(d, w, memory.len()) {
        return answer::refused(why.number());
    }
    let n = image_layouts::table_size(words.len(), d, w);
    let layouts = image_layouts::layout_table(n);
    let fields = image_format::field_table(n);
    match image_checker::check(words, d, w, &layouts[0..n], &fields[0..17 * n]) {
        Ok(end) => {
            image_reader::read_rows(memory, d, w, words, &layouts[0..n], &fields[0..17 * n]);
            answer::accepted(end as u64)
        }
        Err(fault) => answer::refused_at(fault.refusal.number(), fault.position as u64),
    }
}

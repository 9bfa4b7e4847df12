// Text of at most 64 bytes, put together piece by piece.
ghost use Rattle.std.specs.Prelude.{◌≡◌, ◌++◌, ◌+◌, ◌≤◌, length};
ghost use Rattle.feed_text.specs.Text as spec;
ghost use Rattle.feed_text.specs.Text.{content, newline};

use itoa::Buffer;

// The bytes in use stand first. A struct of its own, for it is copied, which the library's `ArrayVec` is not.
#[derive(Clone, Copy)]
pub struct Text {
    pub bytes: [u8; 64],
    pub length: usize,
}

// More bytes at the end. They fit.
fn put(text: &mut Text, more: &[u8])
    requires { text.old.length + length more.now ≤ 64 }
    ensures content_after { content text.new ≡ content text.old ++ more.now }
    ensures length_after { text.new.length ≡ text.old.length + length more.now }
{
    let at = text.length;
    let end = at + more.len();
    text.bytes[at..end].copy_from_slice(more);
    text.length = end;
}

#[tactic(auto, using(crate::proofs::Laws::printed))]
fn put_number(text: &mut Text, n: u64)
    requires { text.old.length + 20 ≤ 64 }
    ensures result_value { content text.new ≡ content text.old ++ spec.decimal n }
    ensures length_bound { text.new.length ≤ text.old.length + 20 }
{
    put(text, Buffer::new().format(n).as_bytes());
}

// A line's last number and its end.
fn put_last(text: &mut Text, n: u64)
    requires { text.old.length + 21 ≤ 64 }
    ensures result_value { content text.new ≡ content text.old ++ spec.decimal n ++ newline }
    ensures length_bound { text.new.length ≤ text.old.length + 21 }
{
    put_number(text, n);
    put(text, b"\n");
}

pub fn begin(s: &[u8]) -> Text
    requires { length s.now ≤ 64 }
    ensures result_value { content result ≡ s.now }
    ensures length_value { result.length ≡ length s.now }
{
    let mut text = Text {
        bytes: [0; 64],
        length: 0,
    };
    put(&mut text, s);
    text
}

// A word and a number.
pub fn single(word: &[u8], n: u64) -> Text
    requires { length word.now ≤ 9 }
    ensures result_value { content result ≡ word.now ++ spec.decimal n ++ newline }
    ensures length_bound { result.length ≤ 64 }
{
    let mut text = begin(word);
    put_last(&mut text, n);
    text
}

// A word and two numbers.
pub fn pair(word: &[u8], m: u64, between: &[u8], n: u64) -> Text
    requires fact_1 { length word.now ≤ 9 }
    requires fact_2 { length between.now ≤ 4 }
    ensures result_value { content result ≡ word.now ++ spec.decimal m ++ between.now ++ spec.decimal n ++ newline }
    ensures length_bound { result.length ≤ 64 }
{
    let mut text = begin(word);
    put_number(&mut text, m);
    put(&mut text, between);
    put_last(&mut text, n);
    text
}

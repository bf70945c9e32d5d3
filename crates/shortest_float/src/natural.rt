//! Natural numbers below 2 ^ 2304, as words of 64 bits. The highest word comes first, so numbers have the order of
//! their words.
ghost use Rattle.std.specs.Prelude.{◌≡◌, ◌+◌, ◌*◌, ◌^◌, ◌<◌, length};
ghost use Rattle.std.specs.Ordering.{nat_cmp};
ghost use Rattle.shortest_float.specs.Words.{value};

use std::cmp::Ordering;

const WORDS: usize = 36;

/// 2 ^ 64.
const WORD: u128 = 1 << 64;

/// A number below 2 ^ 2304.
#[derive(Drop)]
pub(crate) struct Natural {
    words: [u64; WORDS],
}

impl Natural {
    /// The number of one word.
    pub(crate) fn of_word(word: u64) -> Natural
        ensures { value result.words ≡ word }
    {
        let mut words = [0; WORDS];
        words[WORDS - 1] = word;
        Natural { words }
    }

    /// Multiplies by 10 ^ `power`, by as many tens at once as a word can hold.
    pub(crate) fn multiply_by_tens(&mut self, power: u64)
        requires { value self.old.words * 10 ^ power < 2 ^ 2304 }
        ensures { value self.new.words ≡ value self.old.words * 10 ^ power }
    {
        for _ in 0..power / 19 {
            self.multiply(10_000_000_000_000_000_000);
        }
        self.multiply(10u64.pow((power % 19) as u32));
    }

    /// Multiplies by 2 ^ `power`, by as many twos at once as a word can hold.
    pub(crate) fn multiply_by_twos(&mut self, power: u64)
        requires { value self.old.words * 2 ^ power < 2 ^ 2304 }
        ensures { value self.new.words ≡ value self.old.words * 2 ^ power }
    {
        for _ in 0..power / 63 {
            self.multiply(1 << 63);
        }
        self.multiply(2u64.pow((power % 63) as u32));
    }

    fn multiply(&mut self, factor: u64)
        requires { value self.old.words * factor < 2 ^ 2304 }
        ensures { value self.new.words ≡ value self.old.words * factor }
    {
        let _none = multiply_words(&mut self.words, factor);
    }

    /// The order of two numbers.
    pub(crate) fn compare(&self, other: &Natural) -> Ordering
        ensures { result ≡ nat_cmp (value self.now.words) (value other.now.words) }
    {
        order_of(&self.words, &other.words)
    }
}

/// Multiplies the number that the words say, and answers what goes over the first word.
fn multiply_words(words: &mut [u64], factor: u64) -> u64
    ensures length { length words.new ≡ length words.old }
    ensures product { value words.new + result * (2 ^ 64) ^ length words.old ≡ value words.old * factor }
{
    let Some((first, rest)) = words.split_first_mut() else {
        return 0;
    };
    let carry = multiply_words(rest, factor);
    let product = *first as u128 * factor as u128 + carry as u128;
    *first = (product % WORD) as u64;
    (product / WORD) as u64
}

/// The order of two numbers of equally many words.
fn order_of(left: &[u64], right: &[u64]) -> Ordering
    requires { length left.now ≡ length right.now }
    ensures { result ≡ nat_cmp (value left.now) (value right.now) }
{
    // Copies, since `cmp` takes them by reference, and the ranges of the words are known at the parameters.
    let (words, others) = (left, right);
    words.cmp(&others)
}

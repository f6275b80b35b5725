// Which bytes of a block end a leaf, as the bits of one number: the lowest bit is the first byte's. Those of a whole block
// are told without a branch, byte by byte into weights and by sums of eight, so that the compiler takes many at once.
ghost use Rattle.std.specs.Prelude.{◌≡◌, length};
ghost use Rattle.alphabet.specs.Lists.{among};
ghost use Rattle.leaves.specs.Walks.{marked, Weighs, Light, sum_of};

// How many bytes are marked together.
pub const MARKED: usize = 48;

// The weight of each byte among its eight where it ends a leaf, and else 0.
fn weights_of(block: &[u8], ends: [u8; 5]) -> [u8; 48]
    requires { length block.now ≡ 48 }
    ensures { Weighs (among ends) block.now 48 result × (length result ≡ 48) }
{
    let mut weights: [u8; 48] = [0; 48];
    for i in 0..MARKED {
        let weight = 1u8 << (i % 8);
        weights[i] = if search::is_among(ends, block[i]) {
            weight
        } else {
            0
        };
    }
    weights
}

// The sum of eight weights. They are lent: of an array by value the compiler takes the last eight one by one.
fn sum(weights: &[u8], at: usize) -> u64
    requires { Light weights.now at }
    ensures { result ≡ sum_of weights.now at }
{
    let low = (weights[at] + weights[at + 1]) + (weights[at + 2] + weights[at + 3]);
    let high = (weights[at + 4] + weights[at + 5]) + (weights[at + 6] + weights[at + 7]);
    (low + high) as u64
}

// The marks of a block.
pub fn mark(block: &[u8], ends: [u8; 5]) -> u64
    requires { length block.now ≡ 48 }
    ensures { result ≡ marked (among ends) block.now }
{
    let weights = weights_of(block, ends);
    let front = sum(&weights, 0) + 256 * sum(&weights, 8);
    let middle = sum(&weights, 16) + 256 * sum(&weights, 24);
    let back = sum(&weights, 32) + 256 * sum(&weights, 40);
    (front + 65_536 * middle) + 4_294_967_296 * back
}

// A fixed sequence of numbers that look random.
ghost use Rattle.std.specs.Prelude.{◌≤◌};

// The number after x.
fn next(x: u64) -> u64 {
    ((x % 2147483648) * 1103515245 + 12345) % 2147483648
}

#[derive(Clone, Copy)]
pub struct Draws {
    // The last number, from which the sequence goes on.
    pub last: u64,
    // Numbers of the sequence, without their low bits, which repeat soon.
    pub numbers: [u64; 48],
}

// The next 48 numbers after x.
pub fn draw(x: u64) -> Draws {
    let mut numbers = [0; 48];
    let mut last = x;
    for number in &mut numbers {
        last = next(last);
        *number = last / 65536;
    }
    Draws { last, numbers }
}

// The draw at a place, as one of the n numbers below n.
pub fn below(numbers: [u64; 48], at: usize, n: u64) -> u64
    ensures { result ≤ n }
{
    if at < 48 && 0 < n { numbers[at] % n } else { 0 }
}

// Whether the draw at a place is the first of n.
pub fn one_in(numbers: [u64; 48], at: usize, n: u64) -> bool {
    below(numbers, at, n) == 0
}

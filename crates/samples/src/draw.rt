// Numbers drawn by a key, the same in every run.

// One of the numbers below `count`; 0 where there is none.
pub(crate) fn below(count: u16, key: u64) -> u16 {
    let mut drawn = scrambled(scrambled(key)) / 256;
    take_digit(&mut drawn, count)
}

// Turns the bits and takes a step of a linear congruential generator.
pub(crate) fn scrambled(key: u64) -> u64 {
    let turned = key % 65536 * 32768 + key / 65536 % 32768;
    (turned % 2147483648 * 1103515245 + 12345) % 2147483648
}

// Takes the last digit off a number in a base; in base 0 the digit and what is left are 0.
pub(crate) fn take_digit(number: &mut u64, base: u16) -> u16 {
    let base = u64::from(base);
    if base == 0 {
        *number = 0;
        return 0;
    }
    let digit = (*number % base) as u16;
    *number /= base;
    digit
}

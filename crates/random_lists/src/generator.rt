// "The generator", and the arithmetic of its text: "`+` and `<<` drop what goes beyond bit 63".

pub const GOLD: u64 = 0x9e37_79b9_7f4a_7c15;

// a % k, and 0 where k is 0
pub(crate) fn rest(a: u64, k: u64) -> u64 {
    a.checked_rem(k).unwrap_or(0)
}

// [a, b, c, d][i % 4]
pub(crate) fn one_of(i: u64, choices: [u64; 4]) -> u64 {
    choices[(i % 4) as usize]
}

// "It has one word x."
#[derive(Clone, Copy)]
pub struct Generator {
    x: u64,
}

impl Generator {
    // "For list n, x starts as GOLD + n; then `raw` is called 16 times and the results are dropped."
    pub(crate) fn seeded(n: u64) -> Generator {
        let mut generator = Generator {
            x: GOLD.wrapping_add(n),
        };
        for _ in 0..16 {
            generator.raw();
        }
        generator
    }

    pub(crate) fn raw(&mut self) -> u64 {
        self.x ^= self.x << 13;
        self.x ^= self.x >> 7;
        self.x ^= self.x << 17;
        self.x
    }

    pub(crate) fn draw(&mut self, k: u64) -> u64 {
        rest(self.raw() >> 16, k)
    }

    // least + draw(k)
    pub(crate) fn draw_from(&mut self, least: u64, k: u64) -> u64 {
        least.wrapping_add(self.draw(k))
    }

    pub(crate) fn pick(&mut self, choices: [u64; 4]) -> u64 {
        one_of(self.raw() >> 16, choices)
    }
}

// "Setting up a list"
ghost use Rattle.std.specs.Prelude.{◌≤◌};

use crate::generator::Generator;
use log_region::NUMBERS;

// What is drawn for a list. `w` and `l` are W and L.
#[derive(Clone, Copy)]
pub struct Plan {
    pub w: u64,
    pub l: u64,
    pub threads: u64,
    pub profile: u64,
    pub steps: u64,
    pub span: u64,
    pub small: u64,
    pub odds: u64,
    pub values: u64,
    pub first: u64,
    pub cases: u64,
    pub base: u64,
    pub head: u64,
}

impl Plan {
    // Lines 1 to 10
    fn drawn(generator: &mut Generator) -> Plan {
        let w = generator.pick([8, 16, 64, 512]);
        let l = generator.pick([8, 9, 40, 1024]);
        let most = generator.draw_from(1, 8);
        Plan {
            w,
            l,
            threads: generator.draw_from(1, most),
            profile: generator.draw(4),
            steps: generator.draw_from(40, 61),
            span: generator.pick([8, 16, 64, 512]),
            small: generator.pick([16, 32, 128, 512]),
            odds: generator.pick([16, 32, 128, 1024]),
            values: generator.pick([2, 4, 4, 64]),
            first: 0,
            cases: 30,
            base: 0,
            head: 0,
        }
    }

    // Of a row of line 11's table: a least W, and another span and L
    fn widen(&mut self, least: u64, span: u64, l: u64) {
        self.w = self.w.max(least);
        self.span = span;
        self.l = l;
    }

    // Of each row
    fn replace(&mut self, profile: u64, steps: u64, small: u64, odds: u64) {
        self.profile = profile;
        self.steps = steps;
        self.small = small;
        self.odds = odds;
    }

    // Of each row of few cases
    fn keep_cases(&mut self, first: u64, cases: u64) {
        self.first = first;
        self.cases = cases;
    }

    // Line 11: "the first row of this table that fits n"
    fn fit(&mut self, n: u64) {
        if n % 200 == 199 {
            self.l = 1024;
            self.replace(4, 2500, 4096, 4096);
            return;
        }
        match n % 16 {
            15 => {
                self.widen(64, 512, if self.l == 40 { 40 } else { 1024 });
                self.replace(3, 300, 128, 256);
            }
            7 => {
                self.widen(64, 512, 1024);
                self.replace(5, 600, 512, 1024);
            }
            3 => {
                self.widen(16, 16, 1024);
                self.replace(6, 250, 512, 8);
                self.keep_cases(18, 12);
            }
            11 => {
                self.replace(7, 150, 512, 4);
                self.keep_cases(5, 8);
            }
            _ => {}
        }
    }

    // Lines 12 to 15
    fn place(&mut self, generator: &mut Generator) {
        self.span = self.span.min(self.w);
        self.threads = self.threads.min(1 + self.span / 8);
        self.base = generator.draw(2).wrapping_mul(self.w - self.span);
        let near = NUMBERS.wrapping_sub(generator.draw(self.l.wrapping_mul(3)));
        let past = self.l.wrapping_mul(5).wrapping_add(3);
        self.head = generator.pick([0, 0, past, near]);
    }

    // Lines 1 to 15, of list n
    pub(crate) fn of_list(n: u64, generator: &mut Generator) -> Plan {
        let mut plan = Plan::drawn(generator);
        plan.fit(n);
        plan.place(generator);
        plan
    }

    // W, as the number of words of home and of working
    pub(crate) fn home_len(&self) -> usize
        ensures { result ≤ 512 }
    {
        (self.w as usize).min(512)
    }

    // 1 + 3L
    pub(crate) fn log_len(&self) -> usize
        ensures { result ≤ 3073 }
    {
        1 + 3 * (self.l as usize).min(1024)
    }

    // "W < 512 and L < 1024"
    pub(crate) fn is_small(&self) -> bool {
        self.w < 512 && self.l < 1024
    }
}

// Home, working and the log. Of each the first words are in use.
#[derive(Clone, Copy)]
pub struct Buffers {
    pub home: [u64; 512],
    pub working: [u64; 512],
    pub log: [u64; 3073],
}

impl Buffers {
    // Lines 16 to 18
    pub(crate) fn filled(plan: &Plan, generator: &mut Generator) -> Buffers {
        let mut home = [0; 512];
        let mut working = [0; 512];
        let mut log = [0; 3073];
        home[..plan.home_len()].fill_with(|| generator.draw(4));
        working[..plan.home_len()].fill_with(|| generator.raw());
        fill_log(&mut log, plan.head, plan.l);
        Buffers { home, working, log }
    }
}

// Line 18
fn fill_log(log: &mut [u64; 3073], head: u64, l: u64) {
    log[0] = head;
    for i in 0..l {
        let m = head.wrapping_add(i);
        let at = 3 + 3 * (m % l % 1024);
        log[at as usize] = (m / l % 2) << 58;
    }
}

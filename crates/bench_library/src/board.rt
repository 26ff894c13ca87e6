// The plan of the benchmarks: 64 resources and 64 entries, a third of them writes.
ghost use Rattle.std.specs.Prelude.{◌<◌};

use plans::{Entry, Plan};

// Entry i of the plan: every third writes, over two or three resources.
fn entry(i: u64) -> Entry
    requires { i < 64 }
{
    let a = i * 7 % 64;
    let b = i * 11 % 64;
    let c = i * 5 % 16;
    Entry {
        kind: if i % 3 == 0 { 1 } else { 0 },
        set: (1 << a) | (1 << b) | (1 << c),
        length: (i % 20 + 1) as u16,
    }
}

pub fn plan(processors: u8) -> Plan {
    Plan {
        processors,
        resources: 64,
        count: 64,
        entries: std::array::from_fn(|i| entry(i as u64)),
    }
}

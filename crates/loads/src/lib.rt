// The loads of the machines and the copies on each: from the words in one pass, after a shift, and as a report.
// The machines that have room for one copy more.
#![tactic(auto)]

ghost use Rattle.std.specs.Prelude.{◌≡◌, length};
ghost use Rattle.model.specs.Refusal.{max_machines};
ghost use Rattle.cluster.specs.Cluster.{InRange, machines_in};
ghost use Rattle.loads.specs.Loads.{AddAsked, AddedTo, LoadsOf, LoadShiftAsked, ShiftedTo, ReportAsked, ReportOf, RoomTo};

use cluster::{Cluster, MAX_MACHINES};
use held::Held;

// For each of 64 machines: the sum of its copies' shares, and the number of its copies.
#[derive(Clone, Copy)]
pub struct Loads {
    pub load: [u64; MAX_MACHINES],
    pub copies: [usize; MAX_MACHINES],
}

// Hottest load, coolest load, sum of loads.
#[derive(Clone, Copy)]
pub struct LoadReport {
    pub max_load: u64,
    pub min_load: u64,
    pub total_load: u64,
}

// One more block counted, whose copies are the word's set bits.
fn add_word(loads: &mut [u64], copies: &mut [usize], word: u64, share: u64)
    requires { AddAsked loads.old copies.old share }
    ensures { AddedTo loads.old copies.old word share loads.new copies.new }
{
    for m in bits::ones(word) {
        loads[m] = loads[m] + share;
        copies[m] = copies[m] + 1;
    }
}

// The loads and copies of a placement.
pub fn sum_words(held: &Held) -> Loads
    ensures { LoadsOf held.now.cluster held.now.words.now held.now.profiles.now result.load result.copies }
{
    let mut load = [0u64; MAX_MACHINES];
    let mut copies = [0usize; MAX_MACHINES];
    for i in 0..held.cluster.blocks {
        add_word(&mut load[..], &mut copies[..], held.words[i], held.share(i));
    }
    Loads { load, copies }
}

// The loads and copies once a copy of that share has passed from m to n.
pub fn shift(loads: Loads, m: usize, n: usize, share: u64) -> Loads
    requires { LoadShiftAsked loads m n share }
    ensures { ShiftedTo loads m n share result }
{
    let mut load = loads.load;
    let mut copies = loads.copies;
    load[m] = load[m] - share;
    copies[m] = copies[m] - 1;
    load[n] = load[n] + share;
    copies[n] = copies[n] + 1;
    Loads { load, copies }
}

// The largest, the smallest and the sum of the loads of the cluster's machines.
pub fn report(loads: Loads, cluster: Cluster) -> LoadReport
    requires { ReportAsked loads cluster }
    ensures { ReportOf loads cluster result }
{
    let machines = cluster.racks * cluster.rack_size;
    let mut max_load: u64 = 0;
    let mut min_load = loads.load[0];
    let mut total_load: u64 = 0;
    for m in 0..machines {
        max_load = max_load.max(loads.load[m]);
        min_load = min_load.min(loads.load[m]);
        total_load += loads.load[m];
    }
    LoadReport {
        max_load,
        min_load,
        total_load,
    }
}

// The machines with fewer copies than they can hold, as the set bits of a word.
pub fn with_room(copies: &[usize], cluster: Cluster) -> u64
    requires { InRange cluster × (length copies.now ≡ max_machines) }
    ensures { RoomTo cluster copies.now (machines_in cluster) result }
{
    let mut room: u64 = 0;
    for m in 0..cluster.machines() {
        if copies[m] < cluster.capacity {
            room = bits::with_bit(room, m);
        }
    }
    room
}

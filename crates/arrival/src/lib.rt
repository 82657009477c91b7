// The machines of a new block: one copy in each of the lightest domains that its spread asks for, the others on the lightest machines
// left, and the refusal where no such machines are.
#![tactic(auto)]

ghost use Rattle.std.specs.Prelude.{◌≡◌, List, ℕ, ◌≤◌, length};
ghost use Rattle.model.specs.Plan.{Plan};
ghost use Rattle.model.specs.Refusal.{max_machines};
ghost use Rattle.model.specs.Recordings.{filled_word};
ghost use Rattle.cluster.specs.Cluster.{InRange};
ghost use Rattle.loads.specs.Loads.{ReportAsked};
ghost use Rattle.arrival.specs.Arrival.{LightestAsked, LightestOf, PartedTo, roomy_in, WeightsOf, SpreadAsked, SpreadAs, FillAsked, FillOf, PlaceAsked, PlacedOf};

use cluster::{Cluster, MAX_MACHINES};
use loads::Loads;
use refusal::Refusal;

// The lightest number of a set that is not empty, of several the lowest.
fn lightest_of(set: u64, weights: &[u64]) -> usize
    requires { LightestAsked set weights.now }
    ensures { LightestOf set weights.now result }
{
    let mut best = bits::lowest(set);
    for k in bits::ones(bits::without_bit(set, best)) {
        if weights[k] < weights[best] {
            best = k;
        }
    }
    best
}

// The machines of the word in each domain.
fn by_domain(word: u64, cluster: Cluster) -> [u64; MAX_MACHINES]
    requires { InRange cluster }
    ensures { PartedTo word cluster result }
{
    let mut parts = [0u64; MAX_MACHINES];
    for m in bits::ones(word) {
        let d = m / cluster.rack_size % cluster.feeds;
        parts[d] = bits::with_bit(parts[d], m);
    }
    parts
}

// The parts that have a machine.
fn roomy_parts(parts: &[u64], count: usize) -> u64
    requires { (count ≤ max_machines) × (length parts.now ≡ max_machines) }
    ensures { result ≡ roomy_in parts.now count }
{
    let mut roomy: u64 = 0;
    for d in 0..count {
        if 0 < parts[d] {
            roomy = bits::with_bit(roomy, d);
        }
    }
    roomy
}

// What each domain weighs: the loads of all its machines, full or not.
fn domain_weights(loads: Loads, cluster: Cluster) -> [u64; MAX_MACHINES]
    requires { InRange cluster × ReportAsked loads cluster }
    ensures { WeightsOf loads cluster result }
{
    let mut weights = [0u64; MAX_MACHINES];
    for m in 0..cluster.machines() {
        let d = m / cluster.rack_size % cluster.feeds;
        weights[d] += loads.load[m];
    }
    weights
}

// One copy in each of so many lightest domains with room, on the lightest machine of its part.
fn spread_word(parts: &[u64], weights: &[u64], load: &[u64], roomy: u64, spread: usize) -> u64
    requires { SpreadAsked parts.now weights.now load.now roomy spread }
    ensures { SpreadAs parts.now weights.now load.now roomy spread result }
{
    let mut word: u64 = 0;
    let mut left = roomy;
    for _ in 0..spread {
        let d = lightest_of(left, weights);
        let m = lightest_of(parts[d], load);
        word = bits::with_bit(word, m);
        left = bits::without_bit(left, d);
    }
    word
}

// So many other copies, on the lightest free machines that the word has not.
fn fill_word(free: u64, word: u64, load: &[u64], others: usize) -> u64
    requires { FillAsked free word load.now others }
    ensures { (p : Plan) (words : List ℕ) → FillOf p words free load.now → result ≡ filled_word p words word others }
{
    let mut filled = word;
    let mut left = bits::and_not(free, word);
    for _ in 0..others {
        let m = lightest_of(left, load);
        filled = bits::with_bit(filled, m);
        left = bits::without_bit(left, m);
    }
    filled
}

// The machines of a new block with these least copies and this spread.
pub fn place(loads: Loads, cluster: Cluster, least: usize, spread: usize) -> Result<u64, Refusal>
    requires { PlaceAsked loads cluster least spread }
    ensures { PlacedOf loads cluster least spread result }
{
    let free = loads::with_room(&loads.copies[..], cluster);
    if bits::count_set(free) < least {
        return Err(Refusal::NoMachine);
    }
    let parts = by_domain(free, cluster);
    let roomy = roomy_parts(&parts[..], cluster.feeds);
    if bits::count_set(roomy) < spread {
        return Err(Refusal::NoMachine);
    }
    let weights = domain_weights(loads, cluster);
    let word = spread_word(&parts[..], &weights[..], &loads.load[..], roomy, spread);
    Ok(fill_word(free, word, &loads.load[..], least - spread))
}

// A placement handed in: rows 13 to 16 and 18 of the table, each over all blocks or machines before the next. 13 and 14 are judged on words
// and demands, before any share or load is made; the others hold at any counts that pass 14.
#![tactic(auto)]

ghost use Rattle.std.specs.Prelude.{◌≡◌, Bool, List, ◌↔◌, ℕ, ◌<◌, ◌≤◌, leb, get_or};
ghost use Rattle.model.specs.Plan.{Plan};
ghost use Rattle.model.specs.Refusal.{max_machines};
ghost use Rattle.model.specs.Placement.{word_of, replicas, domains_used, all_within, all_spread, all_fit, all_apart};
ghost use Rattle.refusal.specs.Rows.{code_of};
ghost use Rattle.cluster.specs.Cluster.{machines_in, ClusterOf};
ghost use Rattle.cluster.specs.Blocks.{spread_in};
ghost use Rattle.loads.specs.Loads.{LoadsOf};
ghost use Rattle.validation.specs.Validation.{WordsAsked, CountsAsked, CountedAs, CountsJudged, HeldAt, CopiesOf, Apart, layout_refusal};

use cluster::Cluster;
use held::Held;
use loads::Loads;
use refusal::Refusal;

// Row 13: whether every word names only machines below M.
fn all_within(words: &[u64], cluster: Cluster) -> bool
    requires { WordsAsked cluster words.now }
    ensures { (p : Plan) → ClusterOf p cluster → result ≡ all_within p words.now }
{
    let machines = cluster.machines();
    words[..cluster.blocks]
        .iter()
        .all(|&word| bits::is_below(word, machines))
}

// Row 14: whether every block has the copies that it needs within a figure. The words name only machines below M.
fn all_counted(words: &[u64], demands: &[u64], cluster: Cluster, figure: u64) -> bool
    requires { CountsAsked cluster words.now demands.now figure }
    ensures { CountedAs cluster words.now demands.now figure result }
{
    let scale = needs::scale_of(figure);
    (0..cluster.blocks).all(|i| bits::count_set(words[i])
        == needs::needed(demands[i], figure, scale))
}

// Rows 13 and 14 of a placement of enough words, before any share or load is made.
pub fn check_counts(
    words: &[u64],
    demands: &[u64],
    cluster: Cluster,
    figure: u64,
) -> Result<(), Refusal>
    requires { CountsAsked cluster words.now demands.now figure }
    ensures { CountsJudged cluster words.now demands.now figure (code_of result) }
{
    if !all_within(words, cluster) {
        return Err(Refusal::NoSuchMachine);
    }
    if !all_counted(words, demands, cluster, figure) {
        return Err(Refusal::CopyCount);
    }
    Ok(())
}

// Whether block i, which has a copy, lies in as many failure domains as its spread says. They are counted for a spread above one alone.
fn is_spread(held: &Held, i: usize) -> bool
    requires { i < held.now.cluster.blocks }
    ensures { (p : Plan) → ClusterOf p held.now.cluster → let word = word_of held.now.words.now i in
        1 ≤ replicas p word → result ≡ leb (spread_in (get_or held.now.profiles.now i 0)) (domains_used p word) }
{
    let spread = cluster::spread_of(held.profiles[i]);
    spread <= 1 || spread <= bits::domains_used(held.words[i], held.cluster)
}

// Row 15: whether every block lies in as many failure domains as its spread says.
fn all_spread(held: &Held) -> bool
    ensures { (p : Plan) (count : ℕ → ℕ) → HeldAt p count held.now.cluster held.now.words.now held.now.profiles.now
        → result ≡ all_spread p held.now.words.now }
{
    (0..held.cluster.blocks).all(|i| is_spread(held, i))
}

// Row 16: whether no machine holds more than C copies.
fn all_fit(loads: Loads, cluster: Cluster) -> bool
    requires { machines_in cluster ≤ max_machines }
    ensures { (p : Plan) (words : List ℕ) → CopiesOf p words cluster loads → result ≡ all_fit p words }
{
    let machines = cluster.racks * cluster.rack_size;
    loads.copies[..machines]
        .iter()
        .all(|&copies| copies <= cluster.capacity)
}

// Whether block i shares no machine with the block that its profile links it to, where that is another: its partner.
fn is_apart(held: &Held, i: usize) -> bool
    requires { i < held.now.cluster.blocks }
    ensures { (result ≡ Bool.true) ↔ Apart held.now.words.now held.now.profiles.now i }
{
    let partner = held.linked(i);
    partner == i || bits::are_disjoint(held.words[i], held.words[partner])
}

// Row 18: whether no machine holds both blocks of a pair. The words name only machines below M.
fn all_apart(held: &Held) -> bool
    ensures { (p : Plan) (count : ℕ → ℕ) → HeldAt p count held.now.cluster held.now.words.now held.now.profiles.now
        → all_within p held.now.words.now ≡ Bool.true → result ≡ all_apart p held.now.words.now }
{
    (0..held.cluster.blocks).all(|i| is_apart(held, i))
}

// Rows 15, 16 and 18 of a placement whose words have passed 13 and 14, with its loads, at whatever counts it holds.
pub fn check_layout(held: &Held, loads: Loads) -> Result<(), Refusal>
    requires { LoadsOf held.now.cluster held.now.words.now held.now.profiles.now loads.load loads.copies }
    ensures { (p : Plan) (count : ℕ → ℕ) → HeldAt p count held.now.cluster held.now.words.now held.now.profiles.now
        → all_within p held.now.words.now ≡ Bool.true → code_of result ≡ layout_refusal p held.now.words.now }
{
    if !all_spread(held) {
        return Err(Refusal::TooFewDomains);
    }
    if !all_fit(loads, held.cluster) {
        return Err(Refusal::OverCapacity);
    }
    if !all_apart(held) {
        return Err(Refusal::PairTogether);
    }
    Ok(())
}

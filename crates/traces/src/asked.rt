// 20: whether a question is in range.
ghost use Rattle.std.specs.Prelude.{◌≡◌, ◌&&◌, ℕ, leb};
ghost use Rattle.std.specs.List.{list_all};
ghost use Rattle.rules.specs.Layout.{sps93};
ghost use Rattle.rules.specs.Questions.{record_asked, channel_asked, line_asked, component_asked};

// The text of 1993 has records and channels up to these.
const MOST_RECORD: u64 = 9999;

const MOST_CHANNEL: u64 = 9999;

// Bytes 32 to 126.
fn all_printable(tape: &[u8]) -> bool
    ensures value { result ≡ list_all (λ b. leb 32 b && leb b 126) tape.now }
{
    tape.iter().all(|b| 32 <= *b && *b <= 126)
}

// A tape of six such bytes, the first no blank, and a record to 9,999.
pub fn record(tape: &[u8], number: u64) -> bool
    ensures value { result ≡ record_asked sps93 tape.now number }
{
    tape.len() == 6 && all_printable(tape) && tape[0] != 32 && number <= MOST_RECORD
}

// A channel, 1 to 9,999.
#[tactic(auto, unfolding(rules::specs::Questions::channel_asked, rules::specs::Layout::sps93))]
pub fn channel(number: u64) -> bool
    ensures value { result ≡ channel_asked sps93 number }
{
    1 <= number && number <= MOST_CHANNEL
}

// An R line, 1 to 9,999.
#[tactic(auto, unfolding(rules::specs::Questions::line_asked, rules::specs::Sheet::most_lines))]
fn line(r_line: u64) -> bool
    ensures value { result ≡ line_asked r_line }
{
    1 <= r_line && r_line <= lines::MOST_LINES as u64
}

// A component, 1 to 9.
#[tactic(auto, unfolding(rules::specs::Questions::component_asked))]
fn component(number: u64) -> bool
    ensures value { result ≡ component_asked number }
{
    1 <= number && number <= 9
}

// An R line, and a component.
pub fn receiver(r_line: u64, number: u64) -> bool
    ensures value { result ≡ (line_asked r_line && component_asked number) }
{
    line(r_line) && component(number)
}

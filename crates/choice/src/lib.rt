// The choice between two claimed plans for one list: which of them wins. Releases and deadlines are two lists of numbers,
// as 01's number form has them and the public promises speak of them.
#![tactic(auto)]

ghost use Rattle.std.specs.Prelude.{◌≡◌};
ghost use Rattle.day.specs.Windows.{windows};
ghost use Rattle.checks.specs.Answer.{answered, answered_by};
ghost use Rattle.choice.specs.Choice.{plan_number, ChoicePromise, PartPromise};
ghost use Rattle.choice.specs.steps.Compared.{Compared};

use checks::outcome::Refusal;
use day::Day;

// The two plans of a choice: the notebook's own and the server's.
#[derive(Clone, Copy, PartialEq, Eq)]
pub enum Winner {
    Own,
    Server,
}

// As an answer numbers the two plans.
impl From<Winner> for u16 {
    ghost from_gives = { λ winner number. number ≡ plan_number winner };

    fn from(winner: Winner) -> u16 {
        match winner {
            Winner::Own => 1,
            Winner::Server => 2,
        }
    }
}

// Of the outcomes of pricing two plans, which is of the cheaper proper plan; equal cost goes to the notebook's own.
fn cheaper(own: Result<u16, Refusal>, server: Result<u16, Refusal>) -> Result<Winner, Refusal>
    ensures { Compared (answered own) (answered server) (answered_by plan_number result) }
{
    match (own, server) {
        (Ok(own), Ok(server)) if server < own => Ok(Winner::Server),
        (Ok(_), _) => Ok(Winner::Own),
        (Err(_), Ok(_)) => Ok(Winner::Server),
        (Err(_), Err(_)) => Err(Refusal::NeitherProper),
    }
}

// Which of two claimed plans for one list wins.
pub fn which(
    day: Day,
    releases: &[u16],
    deadlines: &[u16],
    own: &[u16],
    server: &[u16],
) -> Result<Winner, Refusal>
    ensures { ChoicePromise day (windows releases.now deadlines.now) own.now server.now (answered_by plan_number result) }
{
    checks::check_list(day, releases, deadlines)?;
    let own_price = claim::price(day, releases, deadlines, own);
    let server_price = claim::price(day, releases, deadlines, server);
    cheaper(own_price, server_price)
}

// The winner's first starts, one for each job, as a part of the plan that was lent; under a refusal the empty start of the notebook's own.
pub fn choose<'a>(
    day: Day,
    releases: &[u16],
    deadlines: &[u16],
    own: &'a [u16],
    server: &'a [u16],
) -> &'a [u16]
    ensures { PartPromise day (windows releases.now deadlines.now) own.entry server.entry result }
{
    let count = releases.len();
    match which(day, releases, deadlines, own, server) {
        Ok(Winner::Own) => &own[..count],
        Ok(Winner::Server) => &server[..count],
        Err(_) => &own[..0],
    }
}

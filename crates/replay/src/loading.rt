// A house book and a table network, loaded together.

ghost use Rattle.std.specs.Prelude.{◌≡◌, Some, None, MatchResult};
ghost use Rattle.fault.specs.First.{or_else};
ghost use Rattle.rows.specs.Rules.{rows_fault};
ghost use Rattle.calls.specs.Given.{points_in};
ghost use Rattle.house.specs.House.{meaning_of as book_of};
ghost use Rattle.network.specs.Table.{network_fault};
ghost use Rattle.dispatch.specs.Base.{base_of};
ghost use Rattle.checks.specs.Causes.{base_fault};
ghost use Rattle.checks.specs.Pointed.{pointed};
ghost use Rattle.replay.specs.Loaded.{Loaded};

use calls::BasePoints;
use checks::dispatch_at;
use dispatch::Dispatch;
use fault::Fault;
use house::HouseBook;
use network::TableNetwork;
use rows::Row;

#[derive(Clone, Copy)]
pub(crate) struct Market {
    pub(crate) book: HouseBook,
    pub(crate) network: TableNetwork,
}

impl Market {
    // The market of the rows and of each line's shares, or the first fault, the book's before the network's.
    pub(crate) fn load(cents: u32, rows: &[Row], shares: &[[i16; 64]]) -> Result<Market, Fault>
        ensures { MatchResult result (Loaded cents rows.now shares.now) (λ f. or_else (rows_fault cents rows.now) (network_fault shares.now) ≡ Some f) }
    {
        let book = HouseBook::load(cents, rows)?;
        let network = TableNetwork::load(shares)?;
        Ok(Market { book, network })
    }

    // The dispatch of base points, or why the book declines them.
    pub(crate) fn dispatch(&self, base: &BasePoints) -> Result<Dispatch, Fault>
        ensures { MatchResult result (λ d. (base_fault (book_of self.now.book) base.now ≡ None) × (base_of d ≡ pointed (points_in base.now))) (λ f. base_fault (book_of self.now.book) base.now ≡ Some f) }
    {
        dispatch_at(&self.book, base)
    }
}

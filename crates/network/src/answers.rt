// The table network answers the questions of a network.

ghost use Rattle.network.specs.Table.{meaning_of};
ghost use Rattle.network.specs.Ranged.{network_lawful};

use crate::injections::Injections;
use crate::network::Network;
use crate::table::TableNetwork;

impl Network for TableNetwork {
    ghost meaning = { meaning_of };

    ghost lawful = { network_lawful };

    ghost few = { λ t. (network_lawful t).few };

    ghost least = { λ t. (network_lawful t).least };

    ghost most = { λ t. (network_lawful t).most };

    fn lines(&self) -> usize {
        self.rows.as_slice().len()
    }

    fn share(&self, line: usize, bus: usize) -> i16 {
        self.rows.get(line).map_or(0, |shares| shares.share(bus))
    }

    fn flow(&self, line: usize, injections: &Injections) -> i64 {
        self.rows
            .get(line)
            .map_or(0, |shares| shares.flow(injections))
    }
}

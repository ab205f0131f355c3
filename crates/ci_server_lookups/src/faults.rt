//! Why nothing was worked out of what was looked up, as a fault of the store.

ghost use Rattle.std.specs.Prelude.{◌≡◌, Ok, Err, IfOk, IfErr};
ghost use Rattle.ci_server_lookups.specs.Faults.{as_store_fault};

use ci_machine_statuses::fault::StatusFault;
use ci_store::fault::StoreFault;

/// Records that don't fit together are a fault of the store, and want of memory stays that.
pub fn or_store_fault<A>(settled: Result<A, StatusFault>) -> Result<A, StoreFault>
    ensures given { IfOk settled (λ a. result ≡ Ok a) }
    ensures answer { IfOk result (λ a. settled ≡ Ok a) }
    ensures cause { IfErr settled (λ fault. result ≡ Err (as_store_fault fault)) }
{
    match settled {
        Ok(a) => Ok(a),
        Err(StatusFault::Memory) => Err(StoreFault::Memory),
        Err(StatusFault::Broken) => Err(StoreFault::Broken),
    }
}

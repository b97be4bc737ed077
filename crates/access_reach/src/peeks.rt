// Whether a write would call a device.
ghost use Rattle.std.specs.Prelude.{◌≡◌, ◌||◌, true};
ghost use Rattle.std.specs.List.{list_any};
ghost use Rattle.std.proofs.Common.{refl, sym, ap, ◌∙◌};
ghost use Rattle.std.proofs.Math.Bool.{or_assoc, or-false};
ghost use Rattle.std.proofs.lemmas.List.Folds.{list_any-append};
ghost use Rattle.mem_base.specs.access.AccessSteps.{writing};
ghost use Rattle.access_plan.specs.HostPlans.{plan_with_host};
ghost use Rattle.access_reach.specs.Asking.{asked, is_call};

use crate::accesses::write;
use crate::buses::{Bus, Takes};
use access_base::DONE;
use generation::Generation;
use mem_base::{Client, RegionId, SpaceId, TxResult};

// A bus that writes nothing, and only notes whether a device is called.
#[derive(Drop)]
struct Peek<'g> {
    generation: &'g Generation,
    called: bool,
}

impl Bus for Peek<'_> {
    ghost shows = { λ p. p.generation.now };

    ghost asks = { λ p es rs q. (q.generation.now ≡ p.generation.now) × (q.called ≡ (p.called || list_any is_call es)) };

    fn generation(&self) -> &Generation {
        self.generation
    }

    ghost begins = { λ x. (refl, sym (or-false x.called)) };

    ghost goes_on = { λ x y z es fs rs qs l m n. (
      n.0 ∙ m.0,
      n.1 ∙ ap (λ b. b || list_any is_call fs) m.1 ∙ or_assoc x.called (list_any is_call es) (list_any is_call fs)
          ∙ ap (λ b. x.called || b) (sym (list_any-append is_call es fs)),
    ) };

    ghost stays = { λ x y es rs m. m.0 };
}

impl Takes for Peek<'_> {
    fn write_memory(&mut self, _region: RegionId, _offset: u64, _bytes: &[u8]) {}

    fn write_device(
        &mut self,
        _region: RegionId,
        _offset: u64,
        _size: u8,
        _value: u64,
    ) -> TxResult {
        self.called = true;
        DONE
    }

    fn notify(&mut self, _number: u32) {}

    fn mark_page(&mut self, _region: RegionId, _client: Client, _page: u64) {}
}

/// Whether a write would call a device: no notifier takes that piece of it, and the device takes its size. It writes nothing.
pub fn calls_device(g: &Generation, space: SpaceId, addr: u64, bytes: &[u8]) -> bool
    ensures { result ≡ list_any is_call (asked (plan_with_host g.now.forest space addr (writing bytes.now))) }
{
    let mut peek = Peek {
        generation: g,
        called: false,
    };
    write(&mut peek, space, addr, bytes);
    peek.called
}

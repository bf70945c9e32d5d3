//! What is asked of a collector at this address.
ghost use Rattle.std.specs.Prelude.{◌≡◌, ℕ, List, Bool, true, IfOk, string_bytes};
ghost use Rattle.admin_http.specs.Texts.{AdminTexts};
ghost use Rattle.admin_http.specs.declared.asked.Route.{Route};
ghost use Rattle.admin_http.specs.declared.asked.Route.TheVariants.{Decisions, Metrics, Status, Trace};

use std::alloc::{AllocError, Global};

/// A collector, as those in charge of it see it.
pub trait Admin {
    /// It was asked to close.
    ghost is_closed: { Self → Bool };

    /// It was asked to open its output anew.
    ghost is_reopened: { Self → Bool };

    /// It may say this of whether it is closing.
    ghost stops: { Self → Bool → Type 0 };

    /// It may tell what it has counted by this text, to a request that goes there.
    ghost tells: { Self → Route → List ℕ → Type 0 };

    /// Its texts that stay.
    ghost texts: { Self → AdminTexts };

    /// Asks it to close, for good: it takes no request from then on, and ends once what it holds is dealt with.
    fn close(&mut self)
        ensures { is_closed self.new ≡ true };

    /// Asks it to open the file of its output anew, at the same path, since the one that it writes was moved away.
    fn reopen(&mut self)
        ensures { is_reopened self.new ≡ true };

    /// Whether it was asked to close, here or elsewhere.
    fn is_stopping(&self) -> bool
        ensures { stops self.now result };

    /// Its numbers, as Prometheus reads them.
    fn metrics(&self, alloc: Global) -> Result<String, AllocError>
        ensures { IfOk result (λ text. tells self.now Metrics (string_bytes text)) };

    /// Its counts, now and over the last minutes, as JSON.
    fn status(&self, alloc: Global) -> Result<String, AllocError>
        ensures { IfOk result (λ text. tells self.now Status (string_bytes text)) };

    /// What became of the last traces, as JSON.
    fn decisions(&self, alloc: Global) -> Result<String, AllocError>
        ensures { IfOk result (λ text. tells self.now Decisions (string_bytes text)) };

    /// What became of the trace whose id has these bytes, as JSON.
    fn trace(&self, alloc: Global, id: [u8; 16]) -> Result<String, AllocError>
        ensures { IfOk result (λ text. tells self.now (Trace id) (string_bytes text)) };

    /// Its configuration, in TOML.
    fn config(&self) -> &str
        ensures { result.now ≡ (texts self.now).config };

    /// The page that shows it, in HTML.
    fn page(&self) -> &str
        ensures { result.now ≡ (texts self.now).page };

    /// The fields of a head that go with the page, each with its line end.
    fn page_fields(&self) -> &str
        ensures { result.now ≡ (texts self.now).page_fields };
}

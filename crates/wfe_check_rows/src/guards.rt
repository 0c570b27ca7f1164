// How many guards a scan reads.
ghost use Rattle.std.specs.Prelude.{◌≡◌, true, is_none};
ghost use Rattle.laws.specs.ScanLaw.{guards};
ghost use Rattle.wfe_words.specs.Config.{bad_field};

use wfe_words::{Config, SchemeKind};

/// How many guards a scan reads under a setting in its ranges: at most 576.
pub fn guard_count(config: &Config) -> u32
    requires { is_none (bad_field config.now) ≡ true }
    ensures { result ≡ guards config.now }
{
    match config.scheme {
        SchemeKind::He | SchemeKind::Hp => config.seats * config.indexes,
        SchemeKind::Ibr => config.seats,
        SchemeKind::Wfe => config.seats + config.seats * config.indexes,
    }
}

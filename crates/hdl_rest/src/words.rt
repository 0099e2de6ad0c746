//! The words that the query of a request may have which changes a handle.

ghost use Rattle.std.specs.Prelude.{◌≡◌};
ghost use Rattle.hdl_proxy.specs.Query.{texts_of};
ghost use Rattle.hdl_rest.specs.Words.{are_known, is_known};

use hdl_proxy::Pair;

/// Whether a request of this method, which changes a handle, may have this word.
fn is_known(method: &str, word: &str) -> bool
    ensures { result ≡ is_known method.now word.now }
{
    if method == "PUT" {
        word == "overwrite" || word == "index" || word == "mintNewSuffix"
    } else {
        word == "index"
    }
}

/// Whether it may have all of these.
pub(crate) fn are_known(method: &str, pairs: &[Pair]) -> bool
    ensures { result ≡ are_known method.now (texts_of pairs.now) }
{
    for pair in pairs {
        if !is_known(method, pair.0.as_str()) {
            return false;
        }
    }
    true
}

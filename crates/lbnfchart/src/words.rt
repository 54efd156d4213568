//! The words behind the program's name.
ghost use Rattle.std.specs.Prelude.{◌↔◌, IsTrue};
ghost use Rattle.lbnfchart.specs.TopCall.{IsServe};

/// Whether the words are the one word `serve`. It takes no memory.
#[tactic(auto, using(crate::proofs::TopCallLemmas::one_word_serves))]
pub fn is_serve(words: &[String]) -> bool
    ensures { IsTrue result ↔ IsServe words.now }
{
    let [word] = words else {
        return false;
    };
    word.as_str() == "serve"
}

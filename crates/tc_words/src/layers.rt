//! The layers of the link in which octets are read.
ghost use Rattle.std.specs.Prelude.{◌≡◌, IfErr, IfOk};
ghost use Rattle.tc_words.specs.Layers.{layer_word};
ghost use Rattle.tc_words.specs.declared.layers.Layer.{Layer as SomeLayer};

use crate::lines::UsageFault;

/// A layer of the link, in which octets are read.
#[derive(Clone, Copy, Debug, PartialEq, Eq)]
pub enum Layer {
    /// A telecommand transfer frame.
    Frame,
    /// A CLTU, with the frame in it.
    Cltu,
    /// A space packet: a telecommand, or a report.
    Packet,
    /// A telemetry transfer frame.
    Tm,
}

impl Layer {
    /// Returns its word on a command line.
    pub fn word(self) -> &'static str
        ensures { result.now ≡ layer_word self }
    {
        match self {
            Layer::Frame => "frame",
            Layer::Cltu => "cltu",
            Layer::Packet => "packet",
            Layer::Tm => "tm",
        }
    }
}

/// Returns the layer that a word names.
pub(crate) fn spelled_layer<'a>(word: &'a str) -> Result<Layer, UsageFault<'a>>
    ensures layer { IfOk result (λ layer. word.entry.now ≡ layer_word layer) }
    ensures fault { IfErr result (λ fault. (fault ≡ UsageFault.NoLayer word.entry) × ((some : SomeLayer) → ¬ (word.entry.now ≡ layer_word some))) }
{
    if word == Layer::Frame.word() {
        Ok(Layer::Frame)
    } else if word == Layer::Cltu.word() {
        Ok(Layer::Cltu)
    } else if word == Layer::Packet.word() {
        Ok(Layer::Packet)
    } else if word == Layer::Tm.word() {
        Ok(Layer::Tm)
    } else {
        Err(UsageFault::NoLayer(word))
    }
}

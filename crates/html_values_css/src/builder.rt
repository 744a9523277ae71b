//! A builder of css properties from typed values, which passes their warnings to a sink.

ghost use Rattle.std.specs.Prelude.{◌≡◌, [], chars, if◌then◌else◌, OnOk, OnErr, IfOk, IfErr};
ghost use Rattle.html_values_css.specs.{Properties.{with_property}, Sink.{TakesWarning, Hands, Given, Interrupted}, Writer.{fails}};

use crate::properties::Properties;
use crate::sink::{WarningSink, pass_on};
use crate::to_css::ToCss;
use crate::writer::CssWriter;
use html_names_core::Refused;
use std::alloc::{AllocError, Global};

/// Properties that are being built from values. Warnings of values go to the sink.
///
/// A value that fails changes only the warnings: an earlier value of that name stays. See
/// [`Properties::build`] for an example.
#[derive(Drop)]
pub struct PropertiesBuilder<S> {
    pub(crate) properties: Properties,
    pub(crate) sink: S,
}

impl Properties {
    /// Starts a builder without properties.
    ///
    /// ```
    /// use html_values::{Abs, Paint, Properties, Rgba};
    ///
    /// let mut warnings = Vec::new(rt.alloc());
    /// let mut builder = Properties::build(rt.alloc(), &mut warnings);
    /// let (r, g, b, a) = (0, 128, 0, 255);
    /// let green = Paint::Solid(Rgba { r, g, b, a });
    /// builder.push("width", &Abs::from_millionths(2_500_000))?;
    /// builder.push("color", &green)?;
    /// builder.push("color", &Paint::Gradient)?; // has no css: it is left out, with a warning
    /// let style = builder.finish().to_inline().to_string(rt.alloc())?;
    /// assert_eq!(rt; style.as_str(), "color: #008000; width: 2.5pt");
    /// assert_eq!(rt; warnings.len(), 1);
    /// ```
    pub fn build<S: WarningSink>(alloc: Global, sink: S) -> PropertiesBuilder<S>
        ensures { result ≡ record { properties = []; sink = sink } }
    {
        PropertiesBuilder::new(alloc, sink)
    }
}

impl<S: WarningSink> PropertiesBuilder<S> {
    /// Creates a builder without properties.
    pub fn new(alloc: Global, sink: S) -> PropertiesBuilder<S>
        ensures { result ≡ record { properties = []; sink = sink } }
    {
        PropertiesBuilder {
            properties: Properties::new(alloc),
            sink,
        }
    }

    /// Sets the value of a name to the css text of a value, unless the value fails. Passes the
    /// value's warnings to the sink, in order. If the sink refuses one, or an allocation fails, the
    /// properties are unchanged, and the sink has received only the warnings before that, if any.
    pub fn push<T: ToCss>(&mut self, name: &str, value: &T) -> Result<(), AllocError>
        ensures ok { OnOk result (self.new.properties ≡ (if fails (T.warnings value.now)
            then self.old.properties else with_property self.old.properties (chars name.now)
            (T.text value.now))) }
        ensures kept { OnErr result (self.new.properties ≡ self.old.properties) }
        ensures given { Hands (TakesWarning S.warnings S.borrow S.emit_gives) result self.old.sink
            (T.warnings value.now) self.new.sink }
    {
        let alloc = self.properties.allocator();
        let mut out = CssWriter::new(alloc, Vec::new(alloc));
        value.emit(&mut out)?;
        pass_on(&out.sink, &mut self.sink)?;
        if out.failed {
            return Ok(());
        }
        match self.properties.push(name, out.text) {
            Ok(()) => Ok(()),
            Err(_) => Err(AllocError),
        }
    }

    /// Calls `push` and returns the builder. If `push` fails, the error holds the builder with the
    /// properties that it had.
    pub fn with<T: ToCss>(
        mut self,
        name: &str,
        value: &T,
    ) -> Result<PropertiesBuilder<S>, Refused<PropertiesBuilder<S>>>
        ensures ok { IfOk result (λ made. made.properties ≡ (if fails (T.warnings value.now)
            then self.properties else with_property self.properties (chars name.now)
            (T.text value.now))) }
        ensures back { IfErr result (λ refused. refused.back.properties ≡ self.properties) }
        ensures given { IfOk result (λ made. Given (TakesWarning S.warnings S.borrow S.emit_gives)
            self.sink (T.warnings value.now) made.sink) }
        ensures given_back { IfErr result (λ refused.
            Interrupted (TakesWarning S.warnings S.borrow S.emit_gives) self.sink
            (T.warnings value.now) refused.back.sink) }
    {
        match self.push(name, value) {
            Ok(()) => Ok(self),
            Err(_) => Err(Refused { back: self }),
        }
    }

    /// Returns the properties and drops the sink.
    pub fn finish(self) -> Properties
    where
        S: Drop,
        ensures { result ≡ self.properties }
    {
        self.properties
    }
}

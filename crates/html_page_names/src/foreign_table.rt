//! The names of SVG and MathML that have capitals, in the ascending order of these names in
//! lowercase.

/// Passes to the macro `$column` a row for each tag of SVG that has capitals: its name in lowercase
/// and its name.
macro_rules! tag_rows {
    ($column:ident) => {
        $column! {
            "altglyph": "altGlyph",
            "altglyphdef": "altGlyphDef",
            "altglyphitem": "altGlyphItem",
            "animatecolor": "animateColor",
            "animatemotion": "animateMotion",
            "animatetransform": "animateTransform",
            "clippath": "clipPath",
            "feblend": "feBlend",
            "fecolormatrix": "feColorMatrix",
            "fecomponenttransfer": "feComponentTransfer",
            "fecomposite": "feComposite",
            "feconvolvematrix": "feConvolveMatrix",
            "fediffuselighting": "feDiffuseLighting",
            "fedisplacementmap": "feDisplacementMap",
            "fedistantlight": "feDistantLight",
            "fedropshadow": "feDropShadow",
            "feflood": "feFlood",
            "fefunca": "feFuncA",
            "fefuncb": "feFuncB",
            "fefuncg": "feFuncG",
            "fefuncr": "feFuncR",
            "fegaussianblur": "feGaussianBlur",
            "feimage": "feImage",
            "femerge": "feMerge",
            "femergenode": "feMergeNode",
            "femorphology": "feMorphology",
            "feoffset": "feOffset",
            "fepointlight": "fePointLight",
            "fespecularlighting": "feSpecularLighting",
            "fespotlight": "feSpotLight",
            "fetile": "feTile",
            "feturbulence": "feTurbulence",
            "foreignobject": "foreignObject",
            "glyphref": "glyphRef",
            "lineargradient": "linearGradient",
            "radialgradient": "radialGradient",
            "textpath": "textPath",
        }
    };
}

/// Passes to the macro `$column` a row for each attribute of SVG that has capitals.
macro_rules! attr_rows {
    ($column:ident) => {
        $column! {
            "attributename": "attributeName",
            "attributetype": "attributeType",
            "basefrequency": "baseFrequency",
            "baseprofile": "baseProfile",
            "calcmode": "calcMode",
            "clippathunits": "clipPathUnits",
            "diffuseconstant": "diffuseConstant",
            "edgemode": "edgeMode",
            "filterunits": "filterUnits",
            "glyphref": "glyphRef",
            "gradienttransform": "gradientTransform",
            "gradientunits": "gradientUnits",
            "kernelmatrix": "kernelMatrix",
            "kernelunitlength": "kernelUnitLength",
            "keypoints": "keyPoints",
            "keysplines": "keySplines",
            "keytimes": "keyTimes",
            "lengthadjust": "lengthAdjust",
            "limitingconeangle": "limitingConeAngle",
            "markerheight": "markerHeight",
            "markerunits": "markerUnits",
            "markerwidth": "markerWidth",
            "maskcontentunits": "maskContentUnits",
            "maskunits": "maskUnits",
            "numoctaves": "numOctaves",
            "pathlength": "pathLength",
            "patterncontentunits": "patternContentUnits",
            "patterntransform": "patternTransform",
            "patternunits": "patternUnits",
            "pointsatx": "pointsAtX",
            "pointsaty": "pointsAtY",
            "pointsatz": "pointsAtZ",
            "preservealpha": "preserveAlpha",
            "preserveaspectratio": "preserveAspectRatio",
            "primitiveunits": "primitiveUnits",
            "refx": "refX",
            "refy": "refY",
            "repeatcount": "repeatCount",
            "repeatdur": "repeatDur",
            "requiredextensions": "requiredExtensions",
            "requiredfeatures": "requiredFeatures",
            "specularconstant": "specularConstant",
            "specularexponent": "specularExponent",
            "spreadmethod": "spreadMethod",
            "startoffset": "startOffset",
            "stddeviation": "stdDeviation",
            "stitchtiles": "stitchTiles",
            "surfacescale": "surfaceScale",
            "systemlanguage": "systemLanguage",
            "tablevalues": "tableValues",
            "targetx": "targetX",
            "targety": "targetY",
            "textlength": "textLength",
            "viewbox": "viewBox",
            "viewtarget": "viewTarget",
            "xchannelselector": "xChannelSelector",
            "ychannelselector": "yChannelSelector",
            "zoomandpan": "zoomAndPan",
        }
    };
}

macro_rules! small_column {
    ($($small:literal: $name:literal,)*) => { [$($small),*] };
}

macro_rules! name_column {
    ($($small:literal: $name:literal,)*) => { [$($name),*] };
}

pub(crate) const SMALL_SVG_TAGS: [&str; 37] = tag_rows!(small_column);

pub(crate) const SVG_TAGS: [&str; 37] = tag_rows!(name_column);

/// The indices in `SMALL_SVG_TAGS`, each spelled as its name.
#[rattlefmt::skip]
#[allow(non_camel_case_types)]
#[repr(u8)]
enum SvgTag {
    altglyph, altglyphdef, altglyphitem, animatecolor, animatemotion, animatetransform, clippath,
    feblend, fecolormatrix, fecomponenttransfer, fecomposite, feconvolvematrix, fediffuselighting,
    fedisplacementmap, fedistantlight, fedropshadow, feflood, fefunca, fefuncb, fefuncg, fefuncr,
    fegaussianblur, feimage, femerge, femergenode, femorphology, feoffset, fepointlight,
    fespecularlighting, fespotlight, fetile, feturbulence, foreignobject, glyphref, lineargradient,
    radialgradient, textpath,
}

/// The index in `SMALL_SVG_TAGS` of the first name with each first letter, and the length.
#[rattlefmt::skip]
pub(crate) const SVG_TAG_STARTS: [u8; 27] = [
    SvgTag::altglyph as u8, SvgTag::clippath as u8, SvgTag::clippath as u8, SvgTag::feblend as u8,
    SvgTag::feblend as u8, SvgTag::feblend as u8, SvgTag::glyphref as u8,
    SvgTag::lineargradient as u8, SvgTag::lineargradient as u8, SvgTag::lineargradient as u8,
    SvgTag::lineargradient as u8, SvgTag::lineargradient as u8, SvgTag::radialgradient as u8,
    SvgTag::radialgradient as u8, SvgTag::radialgradient as u8, SvgTag::radialgradient as u8,
    SvgTag::radialgradient as u8, SvgTag::radialgradient as u8, SvgTag::textpath as u8,
    SvgTag::textpath as u8, 37, 37, 37, 37, 37, 37, 37,
];

pub(crate) const SMALL_SVG_ATTRS: [&str; 58] = attr_rows!(small_column);

pub(crate) const SVG_ATTRS: [&str; 58] = attr_rows!(name_column);

/// The indices in `SMALL_SVG_ATTRS`, each spelled as its name.
#[rattlefmt::skip]
#[allow(non_camel_case_types)]
#[repr(u8)]
enum SvgAttr {
    attributename, attributetype, basefrequency, baseprofile, calcmode, clippathunits,
    diffuseconstant, edgemode, filterunits, glyphref, gradienttransform, gradientunits,
    kernelmatrix, kernelunitlength, keypoints, keysplines, keytimes, lengthadjust,
    limitingconeangle, markerheight, markerunits, markerwidth, maskcontentunits, maskunits,
    numoctaves, pathlength, patterncontentunits, patterntransform, patternunits, pointsatx,
    pointsaty, pointsatz, preservealpha, preserveaspectratio, primitiveunits, refx, refy,
    repeatcount, repeatdur, requiredextensions, requiredfeatures, specularconstant,
    specularexponent, spreadmethod, startoffset, stddeviation, stitchtiles, surfacescale,
    systemlanguage, tablevalues, targetx, targety, textlength, viewbox, viewtarget,
    xchannelselector, ychannelselector, zoomandpan,
}

/// The index in `SMALL_SVG_ATTRS` of the first name with each first letter, and the length.
#[rattlefmt::skip]
pub(crate) const SVG_ATTR_STARTS: [u8; 27] = [
    SvgAttr::attributename as u8, SvgAttr::basefrequency as u8, SvgAttr::calcmode as u8,
    SvgAttr::diffuseconstant as u8, SvgAttr::edgemode as u8, SvgAttr::filterunits as u8,
    SvgAttr::glyphref as u8, SvgAttr::kernelmatrix as u8, SvgAttr::kernelmatrix as u8,
    SvgAttr::kernelmatrix as u8, SvgAttr::kernelmatrix as u8, SvgAttr::lengthadjust as u8,
    SvgAttr::markerheight as u8, SvgAttr::numoctaves as u8, SvgAttr::pathlength as u8,
    SvgAttr::pathlength as u8, SvgAttr::refx as u8, SvgAttr::refx as u8,
    SvgAttr::specularconstant as u8, SvgAttr::tablevalues as u8, SvgAttr::viewbox as u8,
    SvgAttr::viewbox as u8, SvgAttr::xchannelselector as u8, SvgAttr::xchannelselector as u8,
    SvgAttr::ychannelselector as u8, SvgAttr::zoomandpan as u8, 58,
];

pub(crate) const SMALL_MATH_ATTRS: [&str; 1] = ["definitionurl"];

pub(crate) const MATH_ATTRS: [&str; 1] = ["definitionURL"];

/// The index in `SMALL_MATH_ATTRS` of the first name with each first letter, and the length.
pub(crate) const MATH_ATTR_STARTS: [u8; 27] = [
    0, 0, 0, 0, 1, 1, 1, 1, 1, 1, 1, 1, 1, 1, 1, 1, 1, 1, 1, 1, 1, 1, 1, 1, 1, 1, 1,
];

//! The named character references (HTML Standard 13.5), in groups by the first letters of their
//! names, from `A` to `z`. `tools/named_references` writes this file.

/// The length of a name, and the one or two characters that it stands for.
pub(crate) struct Reference {
    pub(crate) name_length: u8,
    pub(crate) first: char,
    pub(crate) second: Option<char>,
}

macro_rules! names_column {
    ($([$($name:literal: $first:literal $($second:literal)?,)*])*) => {
        [$(concat!($($name),*)),*]
    };
}

macro_rules! references_column {
    ($([$($name:literal: $first:literal $($second:literal)?,)*])*) => {
        [$(&[$(reference!($name, $first, $($second)?)),*]),*]
    };
}

macro_rules! reference {
    ($name:literal, $first:literal, $($second:literal)?) => {
        Reference {
            name_length: $name.len() as u8,
            first: $first,
            second: second!($($second)?),
        }
    };
}

macro_rules! second {
    () => { None };
    ($second:literal) => { Some($second) };
}

macro_rules! legacy_rows {
    ($column:ident) => {
        $column! {
            ["Auml": 'Ä', "AElig": 'Æ', "Acirc": 'Â', "Aring": 'Å', "Aacute": 'Á', "Agrave": 'À', "Atilde": 'Ã', "AMP": '&',]
            []
            ["Ccedil": 'Ç', "COPY": '©',]
            []
            ["ETH": 'Ð', "Euml": 'Ë', "Ecirc": 'Ê', "Eacute": 'É', "Egrave": 'È',]
            []
            ["GT": '>',]
            []
            ["Iuml": 'Ï', "Icirc": 'Î', "Iacute": 'Í', "Igrave": 'Ì',]
            []
            []
            ["LT": '<',]
            []
            ["Ntilde": 'Ñ',]
            ["Ouml": 'Ö', "Ocirc": 'Ô', "Oacute": 'Ó', "Ograve": 'Ò', "Oslash": 'Ø', "Otilde": 'Õ',]
            []
            ["QUOT": '"',]
            ["REG": '®',]
            []
            ["THORN": 'Þ',]
            ["Uuml": 'Ü', "Ucirc": 'Û', "Uacute": 'Ú', "Ugrave": 'Ù',]
            []
            []
            []
            ["Yacute": 'Ý',]
            []
            []
            []
            []
            []
            []
            []
            [
                "amp": '&', "auml": 'ä', "acirc": 'â', "acute": '´', "aelig": 'æ', "aring": 'å', "aacute": 'á', "agrave": 'à',
                "atilde": 'ã',
            ]
            ["brvbar": '¦',]
            ["cent": '¢', "copy": '©', "cedil": '¸', "ccedil": 'ç', "curren": '¤',]
            ["deg": '°', "divide": '÷',]
            ["eth": 'ð', "euml": 'ë', "ecirc": 'ê', "eacute": 'é', "egrave": 'è',]
            ["frac12": '½', "frac14": '¼', "frac34": '¾',]
            ["gt": '>',]
            []
            ["iuml": 'ï', "icirc": 'î', "iexcl": '¡', "iacute": 'í', "igrave": 'ì', "iquest": '¿',]
            []
            []
            ["lt": '<', "laquo": '«',]
            ["macr": '¯', "micro": 'µ', "middot": '·',]
            ["not": '¬', "nbsp": '\u{a0}', "ntilde": 'ñ',]
            ["ordf": 'ª', "ordm": 'º', "ouml": 'ö', "ocirc": 'ô', "oacute": 'ó', "ograve": 'ò', "oslash": 'ø', "otilde": 'õ',]
            ["para": '¶', "pound": '£', "plusmn": '±',]
            ["quot": '"',]
            ["reg": '®', "raquo": '»',]
            ["shy": '\u{ad}', "sect": '§', "sup1": '¹', "sup2": '²', "sup3": '³', "szlig": 'ß',]
            ["thorn": 'þ', "times": '×',]
            ["uml": '¨', "uuml": 'ü', "ucirc": 'û', "uacute": 'ú', "ugrave": 'ù',]
            []
            []
            []
            ["yen": '¥', "yuml": 'ÿ', "yacute": 'ý',]
            []
        }
    };
}

/// The names of each group, each after the one before.
pub(crate) static LEGACY_NAMES: [&str; 58] = legacy_rows!(names_column);

/// The characters for each name.
pub(crate) static LEGACY_REFERENCES: [&[Reference]; 58] = legacy_rows!(references_column);

macro_rules! other_rows {
    ($column:ident) => {
        $column! {
            [
                "Alpha": 'Α', "Acy": 'А', "Afr": '𝔄', "And": '⩓', "Aopf": '𝔸', "Ascr": '𝒜', "Amacr": 'Ā', "Aogon": 'Ą', "Abreve": 'Ă',
                "Assign": '≔', "ApplyFunction": '\u{2061}',
            ]
            [
                "Beta": 'Β', "Bcy": 'Б', "Bfr": '𝔅', "Barv": '⫧', "Bopf": '𝔹', "Bscr": 'ℬ', "Breve": '˘', "Barwed": '⌆', "Bumpeq": '≎',
                "Because": '∵', "Backslash": '∖', "Bernoullis": 'ℬ',
            ]
            [
                "Chi": 'Χ', "Cap": '⋒', "Cfr": 'ℭ', "Cup": '⋓', "CHcy": 'Ч', "Cdot": 'Ċ', "Copf": 'ℂ', "Cscr": '𝒞', "Ccirc": 'Ĉ',
                "Colon": '∷', "Cross": '⨯', "Cacute": 'Ć', "Ccaron": 'Č', "Colone": '⩴', "Conint": '∯', "CupCap": '≍', "Cayleys": 'ℭ',
                "Cconint": '∰', "Cedilla": '¸', "CenterDot": '·', "CircleDot": '⊙', "Congruent": '≡', "Coproduct": '∐', "CirclePlus": '⊕',
                "CircleMinus": '⊖', "CircleTimes": '⊗', "CloseCurlyQuote": '’', "ContourIntegral": '∮', "CapitalDifferentialD": 'ⅅ',
                "CloseCurlyDoubleQuote": '”', "ClockwiseContourIntegral": '∲', "CounterClockwiseContourIntegral": '∳',
            ]
            [
                "Delta": 'Δ', "Dagger": '‡', "DD": 'ⅅ', "Dcy": 'Д', "Del": '∇', "Dfr": '𝔇', "Dot": '¨', "DJcy": 'Ђ', "DScy": 'Ѕ',
                "DZcy": 'Џ', "Darr": '↡', "Dopf": '𝔻', "Dscr": '𝒟', "Dashv": '⫤', "Dcaron": 'Ď', "DotDot": '\u{20dc}', "Dstrok": 'Đ',
                "Diamond": '⋄', "DownTee": '⊤', "DDotrahd": '⤑', "DotEqual": '≐', "DoubleDot": '¨', "DownArrow": '↓',
                "DownBreve": '\u{311}', "Downarrow": '⇓', "DownArrowBar": '⤓', "DownTeeArrow": '↧', "DifferentialD": 'ⅆ',
                "DoubleLeftTee": '⫤', "DoubleUpArrow": '⇑', "DiacriticalDot": '˙', "DoubleRightTee": '⊨', "DownLeftVector": '↽',
                "DoubleDownArrow": '⇓', "DoubleLeftArrow": '⇐', "DownRightVector": '⇁', "DiacriticalAcute": '´', "DiacriticalGrave": '`',
                "DiacriticalTilde": '˜', "DoubleRightArrow": '⇒', "DownArrowUpArrow": '⇵', "DoubleUpDownArrow": '⇕',
                "DoubleVerticalBar": '∥', "DownLeftTeeVector": '⥞', "DownLeftVectorBar": '⥖', "DownRightTeeVector": '⥟',
                "DownRightVectorBar": '⥗', "DoubleLongLeftArrow": '⟸', "DownLeftRightVector": '⥐', "DoubleLeftRightArrow": '⇔',
                "DoubleLongRightArrow": '⟹', "DoubleContourIntegral": '∯', "DiacriticalDoubleAcute": '˝', "DoubleLongLeftRightArrow": '⟺',
            ]
            [
                "Eta": 'Η', "Epsilon": 'Ε', "ENG": 'Ŋ', "Ecy": 'Э', "Efr": '𝔈', "Edot": 'Ė', "Eopf": '𝔼', "Escr": 'ℰ', "Esim": '⩳',
                "Emacr": 'Ē', "Eogon": 'Ę', "Equal": '⩵', "Ecaron": 'Ě', "Exists": '∃', "Element": '∈', "EqualTilde": '≂',
                "Equilibrium": '⇌', "ExponentialE": 'ⅇ', "EmptySmallSquare": '◻', "EmptyVerySmallSquare": '▫',
            ]
            [
                "Fcy": 'Ф', "Ffr": '𝔉', "Fopf": '𝔽', "Fscr": 'ℱ', "ForAll": '∀', "Fouriertrf": 'ℱ', "FilledSmallSquare": '◼',
                "FilledVerySmallSquare": '▪',
            ]
            [
                "Gamma": 'Γ', "Gg": '⋙', "Gt": '≫', "Gcy": 'Г', "Gfr": '𝔊', "GJcy": 'Ѓ', "Gdot": 'Ġ', "Gopf": '𝔾', "Gscr": '𝒢',
                "Gcirc": 'Ĝ', "Gammad": 'Ϝ', "Gbreve": 'Ğ', "Gcedil": 'Ģ', "GreaterLess": '≷', "GreaterEqual": '≥', "GreaterTilde": '≳',
                "GreaterGreater": '⪢', "GreaterEqualLess": '⋛', "GreaterFullEqual": '≧', "GreaterSlantEqual": '⩾',
            ]
            [
                "Hat": '^', "Hfr": 'ℌ', "Hopf": 'ℍ', "Hscr": 'ℋ', "Hacek": 'ˇ', "Hcirc": 'Ĥ', "HARDcy": 'Ъ', "Hstrok": 'Ħ',
                "HumpEqual": '≏', "HilbertSpace": 'ℋ', "HumpDownHump": '≎', "HorizontalLine": '─',
            ]
            [
                "Iota": 'Ι', "Im": 'ℑ', "Icy": 'И', "Ifr": 'ℑ', "Int": '∬', "IEcy": 'Е', "IOcy": 'Ё', "Idot": 'İ', "Iopf": '𝕀', "Iscr": 'ℐ',
                "IJlig": 'Ĳ', "Imacr": 'Ī', "Iogon": 'Į', "Iukcy": 'І', "Itilde": 'Ĩ', "Implies": '⇒', "Integral": '∫', "ImaginaryI": 'ⅈ',
                "Intersection": '⋂', "InvisibleComma": '\u{2063}', "InvisibleTimes": '\u{2062}',
            ]
            ["Jcy": 'Й', "Jfr": '𝔍', "Jopf": '𝕁', "Jscr": '𝒥', "Jcirc": 'Ĵ', "Jukcy": 'Є', "Jsercy": 'Ј',]
            ["Kappa": 'Κ', "Kcy": 'К', "Kfr": '𝔎', "KHcy": 'Х', "KJcy": 'Ќ', "Kopf": '𝕂', "Kscr": '𝒦', "Kcedil": 'Ķ',]
            [
                "Lambda": 'Λ', "Ll": '⋘', "Lt": '≪', "Lcy": 'Л', "Lfr": '𝔏', "Lsh": '↰', "LJcy": 'Љ', "Lang": '⟪', "Larr": '↞', "Lopf": '𝕃',
                "Lscr": 'ℒ', "Lacute": 'Ĺ', "Lcaron": 'Ľ', "Lcedil": 'Ļ', "Lmidot": 'Ŀ', "Lstrok": 'Ł', "LeftTee": '⊣', "LessLess": '⪡',
                "LeftArrow": '←', "LeftFloor": '⌊', "Leftarrow": '⇐', "LessTilde": '≲', "Laplacetrf": 'ℒ', "LeftVector": '↼',
                "Lleftarrow": '⇚', "LeftCeiling": '⌈', "LessGreater": '≶', "LeftArrowBar": '⇤', "LeftTeeArrow": '↤', "LeftTriangle": '⊲',
                "LeftUpVector": '↿', "LeftTeeVector": '⥚', "LeftVectorBar": '⥒', "LessFullEqual": '≦', "LongLeftArrow": '⟵',
                "Longleftarrow": '⟸', "LeftDownVector": '⇃', "LeftRightArrow": '↔', "Leftrightarrow": '⇔', "LessSlantEqual": '⩽',
                "LongRightArrow": '⟶', "Longrightarrow": '⟹', "LowerLeftArrow": '↙', "LeftRightVector": '⥎', "LeftTriangleBar": '⧏',
                "LeftUpTeeVector": '⥠', "LeftUpVectorBar": '⥘', "LowerRightArrow": '↘', "LeftAngleBracket": '⟨', "LeftUpDownVector": '⥑',
                "LessEqualGreater": '⋚', "LeftDoubleBracket": '⟦', "LeftDownTeeVector": '⥡', "LeftDownVectorBar": '⥙',
                "LeftTriangleEqual": '⊴', "LongLeftRightArrow": '⟷', "Longleftrightarrow": '⟺', "LeftArrowRightArrow": '⇆',
            ]
            [
                "Mu": 'Μ', "Map": '⤅', "Mcy": 'М', "Mfr": '𝔐', "Mopf": '𝕄', "Mscr": 'ℳ', "Mellintrf": 'ℳ', "MinusPlus": '∓',
                "MediumSpace": '\u{205f}',
            ]
            [
                "Nu": 'Ν', "Ncy": 'Н', "Nfr": '𝔑', "Not": '⫬', "NJcy": 'Њ', "Nopf": 'ℕ', "Nscr": '𝒩', "Nacute": 'Ń', "Ncaron": 'Ň',
                "Ncedil": 'Ņ', "NewLine": '\u{a}', "NoBreak": '\u{2060}', "NotLess": '≮', "NotEqual": '≠', "NotTilde": '≁',
                "NotCupCap": '≭', "NotExists": '∄', "NotSubset": '⊂' '\u{20d2}', "NotElement": '∉', "NotGreater": '≯',
                "NotLessLess": '≪' '\u{338}', "NotPrecedes": '⊀', "NotSucceeds": '⊁', "NotSuperset": '⊃' '\u{20d2}', "NotCongruent": '≢',
                "NotHumpEqual": '≏' '\u{338}', "NotLessEqual": '≰', "NotLessTilde": '≴', "NotEqualTilde": '≂' '\u{338}',
                "NotTildeEqual": '≄', "NotTildeTilde": '≉', "NestedLessLess": '≪', "NotGreaterLess": '≹', "NotLessGreater": '≸',
                "NotSubsetEqual": '⊈', "NotVerticalBar": '∤', "NotGreaterEqual": '≱', "NotGreaterTilde": '≵',
                "NotHumpDownHump": '≎' '\u{338}', "NotLeftTriangle": '⋪', "NotSquareSubset": '⊏' '\u{338}', "NonBreakingSpace": '\u{a0}',
                "NotPrecedesEqual": '⪯' '\u{338}', "NotRightTriangle": '⋫', "NotSucceedsEqual": '⪰' '\u{338}',
                "NotSucceedsTilde": '≿' '\u{338}', "NotSupersetEqual": '⊉', "NegativeThinSpace": '\u{200b}',
                "NotGreaterGreater": '≫' '\u{338}', "NotLessSlantEqual": '⩽' '\u{338}', "NotNestedLessLess": '⪡' '\u{338}',
                "NotReverseElement": '∌', "NotSquareSuperset": '⊐' '\u{338}', "NotTildeFullEqual": '≇', "NegativeThickSpace": '\u{200b}',
                "NotLeftTriangleBar": '⧏' '\u{338}', "NegativeMediumSpace": '\u{200b}', "NotGreaterFullEqual": '≧' '\u{338}',
                "NotRightTriangleBar": '⧐' '\u{338}', "NestedGreaterGreater": '≫', "NotDoubleVerticalBar": '∦',
                "NotGreaterSlantEqual": '⩾' '\u{338}', "NotLeftTriangleEqual": '⋬', "NotSquareSubsetEqual": '⋢',
                "NegativeVeryThinSpace": '\u{200b}', "NotPrecedesSlantEqual": '⋠', "NotRightTriangleEqual": '⋭',
                "NotSucceedsSlantEqual": '⋡', "NotSquareSupersetEqual": '⋣', "NotNestedGreaterGreater": '⪢' '\u{338}',
            ]
            [
                "OElig": 'Œ', "Omega": 'Ω', "Omicron": 'Ο', "Or": '⩔', "Ocy": 'О', "Ofr": '𝔒', "Oopf": '𝕆', "Oscr": '𝒪', "Omacr": 'Ō',
                "Odblac": 'Ő', "Otimes": '⨷', "OverBar": '‾', "OverBrace": '⏞', "OverBracket": '⎴', "OpenCurlyQuote": '‘',
                "OverParenthesis": '⏜', "OpenCurlyDoubleQuote": '“',
            ]
            [
                "Pi": 'Π', "Phi": 'Φ', "Psi": 'Ψ', "Prime": '″', "Pr": '⪻', "Pcy": 'П', "Pfr": '𝔓', "Popf": 'ℙ', "Pscr": '𝒫',
                "Product": '∏', "PartialD": '∂', "Precedes": '≺', "PlusMinus": '±', "Proportion": '∷', "Proportional": '∝',
                "Poincareplane": 'ℌ', "PrecedesEqual": '⪯', "PrecedesTilde": '≾', "PrecedesSlantEqual": '≼',
            ]
            ["Qfr": '𝔔', "Qopf": 'ℚ', "Qscr": '𝒬',]
            [
                "Rho": 'Ρ', "Re": 'ℜ', "Rcy": 'Р', "Rfr": 'ℜ', "Rsh": '↱', "Rang": '⟫', "Rarr": '↠', "Ropf": 'ℝ', "Rscr": 'ℛ', "RBarr": '⤐',
                "Racute": 'Ŕ', "Rarrtl": '⤖', "Rcaron": 'Ř', "Rcedil": 'Ŗ', "RightTee": '⊢', "RightArrow": '→', "RightFloor": '⌋',
                "Rightarrow": '⇒', "RightVector": '⇀', "Rrightarrow": '⇛', "RuleDelayed": '⧴', "RightCeiling": '⌉', "RoundImplies": '⥰',
                "RightArrowBar": '⇥', "RightTeeArrow": '↦', "RightTriangle": '⊳', "RightUpVector": '↾', "ReverseElement": '∋',
                "RightTeeVector": '⥛', "RightVectorBar": '⥓', "RightDownVector": '⇂', "RightTriangleBar": '⧐', "RightUpTeeVector": '⥜',
                "RightUpVectorBar": '⥔', "RightAngleBracket": '⟩', "RightUpDownVector": '⥏', "ReverseEquilibrium": '⇋',
                "RightDoubleBracket": '⟧', "RightDownTeeVector": '⥝', "RightDownVectorBar": '⥕', "RightTriangleEqual": '⊵',
                "RightArrowLeftArrow": '⇄', "ReverseUpEquilibrium": '⥯',
            ]
            [
                "Sigma": 'Σ', "Scaron": 'Š', "Sc": '⪼', "Scy": 'С', "Sfr": '𝔖', "Sub": '⋐', "Sum": '∑', "Sup": '⋑', "SHcy": 'Ш',
                "Sopf": '𝕊', "Sqrt": '√', "Sscr": '𝒮', "Star": '⋆', "Scirc": 'Ŝ', "SHCHcy": 'Щ', "SOFTcy": 'Ь', "Sacute": 'Ś',
                "Scedil": 'Ş', "Square": '□', "Subset": '⋐', "Supset": '⋑', "Succeeds": '≻', "SuchThat": '∋', "Superset": '⊃',
                "SmallCircle": '∘', "SquareUnion": '⊔', "SubsetEqual": '⊆', "ShortUpArrow": '↑', "SquareSubset": '⊏', "SucceedsEqual": '⪰',
                "SucceedsTilde": '≿', "SupersetEqual": '⊇', "ShortDownArrow": '↓', "ShortLeftArrow": '←', "SquareSuperset": '⊐',
                "ShortRightArrow": '→', "SquareSubsetEqual": '⊑', "SquareIntersection": '⊓', "SucceedsSlantEqual": '≽',
                "SquareSupersetEqual": '⊒',
            ]
            [
                "Tau": 'Τ', "Theta": 'Θ', "Tab": '\u{9}', "Tcy": 'Т', "Tfr": '𝔗', "TScy": 'Ц', "Topf": '𝕋', "Tscr": '𝒯', "TRADE": '™',
                "TSHcy": 'Ћ', "Tilde": '∼', "Tcaron": 'Ť', "Tcedil": 'Ţ', "Tstrok": 'Ŧ', "Therefore": '∴', "ThinSpace": '\u{2009}',
                "TripleDot": '\u{20db}', "ThickSpace": '\u{205f}' '\u{200a}', "TildeEqual": '≃', "TildeTilde": '≈', "TildeFullEqual": '≅',
            ]
            [
                "Upsilon": 'Υ', "Ucy": 'У', "Ufr": '𝔘', "Uarr": '↟', "Uopf": '𝕌', "Upsi": 'ϒ', "Uscr": '𝒰', "Ubrcy": 'Ў', "Umacr": 'Ū',
                "Union": '⋃', "Uogon": 'Ų', "UpTee": '⊥', "Uring": 'Ů', "Ubreve": 'Ŭ', "Udblac": 'Ű', "Utilde": 'Ũ', "UpArrow": '↑',
                "Uparrow": '⇑', "Uarrocir": '⥉', "UnderBar": '_', "UnionPlus": '⊎', "UnderBrace": '⏟', "UpArrowBar": '⤒', "UpTeeArrow": '↥',
                "UpDownArrow": '↕', "Updownarrow": '⇕', "UnderBracket": '⎵', "UpEquilibrium": '⥮', "UpperLeftArrow": '↖',
                "UpperRightArrow": '↗', "UnderParenthesis": '⏝', "UpArrowDownArrow": '⇅',
            ]
            [
                "Vcy": 'В', "Vee": '⋁', "Vfr": '𝔙', "Vbar": '⫫', "Vert": '‖', "Vopf": '𝕍', "Vscr": '𝒱', "VDash": '⊫', "Vdash": '⊩',
                "Vdashl": '⫦', "Verbar": '‖', "Vvdash": '⊪', "VerticalBar": '∣', "VerticalLine": '|', "VerticalTilde": '≀',
                "VeryThinSpace": '\u{200a}', "VerticalSeparator": '❘',
            ]
            ["Wfr": '𝔚', "Wopf": '𝕎', "Wscr": '𝒲', "Wcirc": 'Ŵ', "Wedge": '⋀',]
            ["Xi": 'Ξ', "Xfr": '𝔛', "Xopf": '𝕏', "Xscr": '𝒳',]
            ["Yuml": 'Ÿ', "Ycy": 'Ы', "Yfr": '𝔜', "YAcy": 'Я', "YIcy": 'Ї', "YUcy": 'Ю', "Yopf": '𝕐', "Yscr": '𝒴', "Ycirc": 'Ŷ',]
            [
                "Zeta": 'Ζ', "Zcy": 'З', "Zfr": 'ℨ', "ZHcy": 'Ж', "Zdot": 'Ż', "Zopf": 'ℤ', "Zscr": '𝒵', "Zacute": 'Ź', "Zcaron": 'Ž',
                "ZeroWidthSpace": '\u{200b}',
            ]
            []
            []
            []
            []
            []
            []
            [
                "and": '∧', "ang": '∠', "alpha": 'α', "asymp": '≈', "alefsym": 'ℵ', "ac": '∾', "af": '\u{2061}', "ap": '≈',
                "acE": '∾' '\u{333}', "acd": '∿', "acy": 'а', "afr": '𝔞', "apE": '⩰', "ape": '≊', "ast": '*', "andd": '⩜', "andv": '⩚',
                "ange": '⦤', "aopf": '𝕒', "apid": '≋', "apos": '\'', "ascr": '𝒶', "aleph": 'ℵ', "amacr": 'ā', "amalg": '⨿', "angle": '∠',
                "angrt": '∟', "angst": 'Å', "aogon": 'ą', "awint": '⨑', "abreve": 'ă', "andand": '⩕', "angmsd": '∡', "angsph": '∢',
                "apacir": '⩯', "approx": '≈', "angrtvb": '⊾', "angzarr": '⍼', "asympeq": '≍', "andslope": '⩘', "angmsdaa": '⦨',
                "angmsdab": '⦩', "angmsdac": '⦪', "angmsdad": '⦫', "angmsdae": '⦬', "angmsdaf": '⦭', "angmsdag": '⦮', "angmsdah": '⦯',
                "angrtvbd": '⦝', "approxeq": '≊', "awconint": '∳',
            ]
            [
                "beta": 'β', "bull": '•', "bdquo": '„', "bcy": 'б', "bfr": '𝔟', "bne": '=' '\u{20e5}', "bot": '⊥', "bNot": '⫭', "bbrk": '⎵',
                "beth": 'ℶ', "bnot": '⌐', "bopf": '𝕓', "boxH": '═', "boxV": '║', "boxh": '─', "boxv": '│', "bscr": '𝒷', "bsim": '∽',
                "bsol": '\\', "bump": '≎', "bcong": '≌', "bepsi": '϶', "blank": '␣', "blk12": '▒', "blk14": '░', "blk34": '▓', "block": '█',
                "boxDL": '╗', "boxDR": '╔', "boxDl": '╖', "boxDr": '╓', "boxHD": '╦', "boxHU": '╩', "boxHd": '╤', "boxHu": '╧',
                "boxUL": '╝', "boxUR": '╚', "boxUl": '╜', "boxUr": '╙', "boxVH": '╬', "boxVL": '╣', "boxVR": '╠', "boxVh": '╫',
                "boxVl": '╢', "boxVr": '╟', "boxdL": '╕', "boxdR": '╒', "boxdl": '┐', "boxdr": '┌', "boxhD": '╥', "boxhU": '╨',
                "boxhd": '┬', "boxhu": '┴', "boxuL": '╛', "boxuR": '╘', "boxul": '┘', "boxur": '└', "boxvH": '╪', "boxvL": '╡',
                "boxvR": '╞', "boxvh": '┼', "boxvl": '┤', "boxvr": '├', "breve": '˘', "bsemi": '⁏', "bsime": '⋍', "bsolb": '⧅',
                "bumpE": '⪮', "bumpe": '≏', "barvee": '⊽', "barwed": '⌅', "becaus": '∵', "bernou": 'ℬ', "bigcap": '⋂', "bigcup": '⋃',
                "bigvee": '⋁', "bkarow": '⤍', "bottom": '⊥', "bowtie": '⋈', "boxbox": '⧉', "bprime": '‵', "bullet": '•', "bumpeq": '≏',
                "backsim": '∽', "because": '∵', "bemptyv": '⦰', "between": '≬', "bigcirc": '◯', "bigodot": '⨀', "bigstar": '★',
                "bnequiv": '≡' '\u{20e5}', "boxplus": '⊞', "backcong": '≌', "barwedge": '⌅', "bbrktbrk": '⎶', "bigoplus": '⨁',
                "bigsqcup": '⨆', "biguplus": '⨄', "bigwedge": '⋀', "boxminus": '⊟', "boxtimes": '⊠', "bsolhsub": '⟈', "backprime": '‵',
                "backsimeq": '⋍', "bigotimes": '⨂', "backepsilon": '϶', "blacksquare": '▪', "blacklozenge": '⧫', "bigtriangleup": '△',
                "blacktriangle": '▴', "bigtriangledown": '▽', "blacktriangledown": '▾', "blacktriangleleft": '◂', "blacktriangleright": '▸',
            ]
            [
                "cap": '∩', "chi": 'χ', "cup": '∪', "circ": 'ˆ', "cong": '≅', "clubs": '♣', "crarr": '↵', "cfr": '𝔠', "cir": '○',
                "caps": '∩' '\u{fe00}', "cdot": 'ċ', "chcy": 'ч', "cirE": '⧃', "cire": '≗', "comp": '∁', "copf": '𝕔', "cscr": '𝒸',
                "csub": '⫏', "csup": '⫐', "cups": '∪' '\u{fe00}', "caret": '⁁', "caron": 'ˇ', "ccaps": '⩍', "ccirc": 'ĉ', "ccups": '⩌',
                "check": '✓', "colon": ':', "comma": ',', "cross": '✗', "csube": '⫑', "csupe": '⫒', "ctdot": '⋯', "cuepr": '⋞',
                "cuesc": '⋟', "cupor": '⩅', "cuvee": '⋎', "cuwed": '⋏', "cwint": '∱', "cacute": 'ć', "capand": '⩄', "capcap": '⩋',
                "capcup": '⩇', "capdot": '⩀', "ccaron": 'č', "circeq": '≗', "cirmid": '⫯', "colone": '≔', "commat": '@', "compfn": '∘',
                "conint": '∮', "coprod": '∐', "copysr": '℗', "cularr": '↶', "cupcap": '⩆', "cupcup": '⩊', "cupdot": '⊍', "curarr": '↷',
                "cylcty": '⌭', "ccupssm": '⩐', "cemptyv": '⦲', "cirscir": '⧂', "coloneq": '≔', "congdot": '⩭', "cudarrl": '⤸',
                "cudarrr": '⤵', "cularrp": '⤽', "curarrm": '⤼', "capbrcup": '⩉', "circledR": '®', "circledS": 'Ⓢ', "cirfnint": '⨐',
                "clubsuit": '♣', "cupbrcap": '⩈', "curlyvee": '⋎', "cwconint": '∲', "centerdot": '·', "checkmark": '✓', "complexes": 'ℂ',
                "circledast": '⊛', "complement": '∁', "curlywedge": '⋏', "circledcirc": '⊚', "circleddash": '⊝', "curlyeqprec": '⋞',
                "curlyeqsucc": '⋟', "curvearrowleft": '↶', "circlearrowleft": '↺', "curvearrowright": '↷', "circlearrowright": '↻',
            ]
            [
                "dArr": '⇓', "darr": '↓', "delta": 'δ', "diams": '♦', "dagger": '†', "dd": 'ⅆ', "dcy": 'д', "dfr": '𝔡', "die": '¨',
                "div": '÷', "dot": '˙', "dHar": '⥥', "dash": '‐', "diam": '⋄', "djcy": 'ђ', "dopf": '𝕕', "dscr": '𝒹', "dscy": 'ѕ',
                "dsol": '⧶', "dtri": '▿', "dzcy": 'џ', "dashv": '⊣', "dblac": '˝', "ddarr": '⇊', "dharl": '⇃', "dharr": '⇂', "disin": '⋲',
                "doteq": '≐', "dtdot": '⋱', "dtrif": '▾', "duarr": '⇵', "duhar": '⥯', "daleth": 'ℸ', "dcaron": 'ď', "dfisht": '⥿',
                "divonx": '⋇', "dlcorn": '⌞', "dlcrop": '⌍', "dollar": '$', "drcorn": '⌟', "drcrop": '⌌', "dstrok": 'đ', "dbkarow": '⤏',
                "ddagger": '‡', "ddotseq": '⩷', "demptyv": '⦱', "diamond": '⋄', "digamma": 'ϝ', "dotplus": '∔', "dwangle": '⦦',
                "doteqdot": '≑', "dotminus": '∸', "drbkarow": '⤐', "dzigrarr": '⟿', "dotsquare": '⊡', "downarrow": '↓', "diamondsuit": '♦',
                "divideontimes": '⋇', "doublebarwedge": '⌆', "downdownarrows": '⇊', "downharpoonleft": '⇃', "downharpoonright": '⇂',
            ]
            [
                "eta": 'η', "emsp": '\u{2003}', "ensp": '\u{2002}', "euro": '€', "empty": '∅', "equiv": '≡', "exist": '∃', "epsilon": 'ε',
                "ee": 'ⅇ', "eg": '⪚', "el": '⪙', "ecy": 'э', "efr": '𝔢', "egs": '⪖', "ell": 'ℓ', "els": '⪕', "eng": 'ŋ', "eDot": '≑',
                "ecir": '≖', "edot": 'ė', "eopf": '𝕖', "epar": '⋕', "epsi": 'ε', "escr": 'ℯ', "esim": '≂', "excl": '!', "eDDot": '⩷',
                "efDot": '≒', "emacr": 'ē', "eogon": 'ę', "eplus": '⩱', "epsiv": 'ϵ', "eqsim": '≂', "erDot": '≓', "erarr": '⥱',
                "esdot": '≐', "easter": '⩮', "ecaron": 'ě', "ecolon": '≕', "egsdot": '⪘', "elsdot": '⪗', "emptyv": '∅',
                "emsp13": '\u{2004}', "emsp14": '\u{2005}', "eparsl": '⧣', "eqcirc": '≖', "equals": '=', "equest": '≟', "eqcolon": '≕',
                "equivDD": '⩸', "elinters": '⏧', "emptyset": '∅', "eqvparsl": '⧥', "eqslantgtr": '⪖', "eqslantless": '⪕',
                "expectation": 'ℰ', "exponentiale": 'ⅇ',
            ]
            [
                "fnof": 'ƒ', "frasl": '⁄', "forall": '∀', "fcy": 'ф', "ffr": '𝔣', "flat": '♭', "fopf": '𝕗', "fork": '⋔', "fscr": '𝒻',
                "fflig": 'ﬀ', "filig": 'ﬁ', "fjlig": 'f' 'j', "fllig": 'ﬂ', "fltns": '▱', "forkv": '⫙', "frown": '⌢', "female": '♀',
                "ffilig": 'ﬃ', "ffllig": 'ﬄ', "frac13": '⅓', "frac15": '⅕', "frac16": '⅙', "frac18": '⅛', "frac23": '⅔', "frac25": '⅖',
                "frac35": '⅗', "frac38": '⅜', "frac45": '⅘', "frac56": '⅚', "frac58": '⅝', "frac78": '⅞', "fpartint": '⨍',
                "fallingdotseq": '≒',
            ]
            [
                "ge": '≥', "gamma": 'γ', "gE": '≧', "gg": '≫', "gl": '≷', "gEl": '⪌', "gap": '⪆', "gcy": 'г', "gel": '⋛', "geq": '≥',
                "ges": '⩾', "gfr": '𝔤', "ggg": '⋙', "glE": '⪒', "gla": '⪥', "glj": '⪤', "gnE": '≩', "gne": '⪈', "gdot": 'ġ', "geqq": '≧',
                "gesl": '⋛' '\u{fe00}', "gjcy": 'ѓ', "gnap": '⪊', "gneq": '⪈', "gopf": '𝕘', "gscr": 'ℊ', "gsim": '≳', "gtcc": '⪧',
                "gvnE": '≩' '\u{fe00}', "gcirc": 'ĝ', "gescc": '⪩', "gimel": 'ℷ', "gneqq": '≩', "gnsim": '⋧', "grave": '`', "gsime": '⪎',
                "gsiml": '⪐', "gtcir": '⩺', "gtdot": '⋗', "gacute": 'ǵ', "gammad": 'ϝ', "gbreve": 'ğ', "gesdot": '⪀', "gesles": '⪔',
                "gtlPar": '⦕', "gtrarr": '⥸', "gtrdot": '⋗', "gtrsim": '≳', "gesdoto": '⪂', "gtquest": '⩼', "gtrless": '≷', "geqslant": '⩾',
                "gesdotol": '⪄', "gnapprox": '⪊', "gtrapprox": '⪆', "gtreqless": '⋛', "gvertneqq": '≩' '\u{fe00}', "gtreqqless": '⪌',
            ]
            [
                "hArr": '⇔', "harr": '↔', "hearts": '♥', "hellip": '…', "hfr": '𝔥', "half": '½', "hbar": 'ℏ', "hopf": '𝕙', "hscr": '𝒽',
                "harrw": '↭', "hcirc": 'ĥ', "hoarr": '⇿', "hairsp": '\u{200a}', "hamilt": 'ℋ', "hardcy": 'ъ', "hercon": '⊹', "homtht": '∻',
                "horbar": '―', "hslash": 'ℏ', "hstrok": 'ħ', "hybull": '⁃', "hyphen": '‐', "harrcir": '⥈', "hksearow": '⤥', "hkswarow": '⤦',
                "heartsuit": '♥', "hookleftarrow": '↩', "hookrightarrow": '↪',
            ]
            [
                "int": '∫', "iota": 'ι', "isin": '∈', "image": 'ℑ', "infin": '∞', "ic": '\u{2063}', "ii": 'ⅈ', "in": '∈', "it": '\u{2062}',
                "icy": 'и', "iff": '⇔', "ifr": '𝔦', "iecy": 'е', "imof": '⊷', "iocy": 'ё', "iopf": '𝕚', "iscr": '𝒾', "iiint": '∭',
                "iiota": '℩', "ijlig": 'ĳ', "imacr": 'ī', "imath": 'ı', "imped": 'Ƶ', "iogon": 'į', "iprod": '⨼', "isinE": '⋹',
                "isins": '⋴', "isinv": '∈', "iukcy": 'і', "iiiint": '⨌', "iinfin": '⧜', "incare": '℅', "inodot": 'ı', "intcal": '⊺',
                "isinsv": '⋳', "itilde": 'ĩ', "intprod": '⨼', "isindot": '⋵', "imagline": 'ℐ', "imagpart": 'ℑ', "infintie": '⧝',
                "integers": 'ℤ', "intercal": '⊺', "intlarhk": '⨗',
            ]
            ["jcy": 'й', "jfr": '𝔧', "jopf": '𝕛', "jscr": '𝒿', "jcirc": 'ĵ', "jmath": 'ȷ', "jukcy": 'є', "jsercy": 'ј',]
            [
                "kappa": 'κ', "kcy": 'к', "kfr": '𝔨', "khcy": 'х', "kjcy": 'ќ', "kopf": '𝕜', "kscr": '𝓀', "kappav": 'ϰ', "kcedil": 'ķ',
                "kgreen": 'ĸ',
            ]
            [
                "le": '≤', "loz": '◊', "lrm": '\u{200e}', "lArr": '⇐', "lang": '⟨', "larr": '←', "lceil": '⌈', "ldquo": '“', "lsquo": '‘',
                "lambda": 'λ', "lfloor": '⌊', "lowast": '∗', "lsaquo": '‹', "lE": '≦', "lg": '≶', "ll": '≪', "lEg": '⪋', "lap": '⪅',
                "lat": '⪫', "lcy": 'л', "leg": '⋚', "leq": '≤', "les": '⩽', "lfr": '𝔩', "lgE": '⪑', "lnE": '≨', "lne": '⪇', "lsh": '↰',
                "lHar": '⥢', "late": '⪭', "lcub": '{', "ldca": '⤶', "ldsh": '↲', "leqq": '≦', "lesg": '⋚' '\u{fe00}', "ljcy": 'љ',
                "lnap": '⪉', "lneq": '⪇', "lopf": '𝕝', "lozf": '⧫', "lpar": '(', "lscr": '𝓁', "lsim": '≲', "lsqb": '[', "ltcc": '⪦',
                "ltri": '◃', "lvnE": '≨' '\u{fe00}', "lAarr": '⇚', "lBarr": '⤎', "langd": '⦑', "larrb": '⇤', "lates": '⪭' '\u{fe00}',
                "lbarr": '⤌', "lbbrk": '❲', "lbrke": '⦋', "lescc": '⪨', "lhard": '↽', "lharu": '↼', "lhblk": '▄', "llarr": '⇇',
                "lltri": '◺', "lneqq": '≨', "lnsim": '⋦', "loang": '⟬', "loarr": '⇽', "lobrk": '⟦', "lopar": '⦅', "lrarr": '⇆',
                "lrhar": '⇋', "lrtri": '⊿', "lsime": '⪍', "lsimg": '⪏', "ltcir": '⩹', "ltdot": '⋖', "ltrie": '⊴', "ltrif": '◂',
                "lAtail": '⤛', "lacute": 'ĺ', "lagran": 'ℒ', "langle": '⟨', "larrfs": '⤝', "larrhk": '↩', "larrlp": '↫', "larrpl": '⤹',
                "larrtl": '↢', "latail": '⤙', "lbrace": '{', "lbrack": '[', "lcaron": 'ľ', "lcedil": 'ļ', "ldquor": '„', "lesdot": '⩿',
                "lesges": '⪓', "lfisht": '⥼', "lharul": '⥪', "llhard": '⥫', "lmidot": 'ŀ', "lmoust": '⎰', "loplus": '⨭', "lowbar": '_',
                "lparlt": '⦓', "lrhard": '⥭', "lsquor": '‚', "lstrok": 'ł', "lthree": '⋋', "ltimes": '⋉', "ltlarr": '⥶', "ltrPar": '⦖',
                "larrbfs": '⤟', "larrsim": '⥳', "lbrksld": '⦏', "lbrkslu": '⦍', "ldrdhar": '⥧', "lesdoto": '⪁', "lessdot": '⋖',
                "lessgtr": '≶', "lesssim": '≲', "lotimes": '⨴', "lozenge": '◊', "ltquest": '⩻', "luruhar": '⥦', "laemptyv": '⦴',
                "ldrushar": '⥋', "leqslant": '⩽', "lesdotor": '⪃', "llcorner": '⌞', "lnapprox": '⪉', "lrcorner": '⌟', "lurdshar": '⥊',
                "leftarrow": '←', "lesseqgtr": '⋚', "lvertneqq": '≨' '\u{fe00}', "lessapprox": '⪅', "lesseqqgtr": '⪋', "lmoustache": '⎰',
                "longmapsto": '⟼', "leftarrowtail": '↢', "leftharpoonup": '↼', "longleftarrow": '⟵', "looparrowleft": '↫',
                "leftleftarrows": '⇇', "leftrightarrow": '↔', "leftthreetimes": '⋋', "longrightarrow": '⟶', "looparrowright": '↬',
                "leftharpoondown": '↽', "leftrightarrows": '⇆', "leftrightharpoons": '⇋', "longleftrightarrow": '⟷',
                "leftrightsquigarrow": '↭',
            ]
            [
                "mu": 'μ', "mdash": '—', "minus": '−', "mp": '∓', "map": '↦', "mcy": 'м', "mfr": '𝔪', "mho": '℧', "mid": '∣', "male": '♂',
                "malt": '✠', "mlcp": '⫛', "mldr": '…', "mopf": '𝕞', "mscr": '𝓂', "mDDot": '∺', "mumap": '⊸', "mapsto": '↦', "marker": '▮',
                "mcomma": '⨩', "midast": '*', "midcir": '⫰', "minusb": '⊟', "minusd": '∸', "mnplus": '∓', "models": '⊧', "mstpos": '∾',
                "maltese": '✠', "minusdu": '⨪', "mapstoup": '↥', "multimap": '⊸', "mapstodown": '↧', "mapstoleft": '↤',
                "measuredangle": '∡',
            ]
            [
                "ne": '≠', "ni": '∋', "nu": 'ν', "nsub": '⊄', "nabla": '∇', "ndash": '–', "notin": '∉', "nGg": '⋙' '\u{338}',
                "nGt": '≫' '\u{20d2}', "nLl": '⋘' '\u{338}', "nLt": '≪' '\u{20d2}', "nap": '≉', "ncy": 'н', "nfr": '𝔫',
                "ngE": '≧' '\u{338}', "nge": '≱', "ngt": '≯', "nis": '⋼', "niv": '∋', "nlE": '≦' '\u{338}', "nle": '≰', "nlt": '≮',
                "npr": '⊀', "nsc": '⊁', "num": '#', "nGtv": '≫' '\u{338}', "nLtv": '≪' '\u{338}', "nang": '∠' '\u{20d2}',
                "napE": '⩰' '\u{338}', "ncap": '⩃', "ncup": '⩂', "ngeq": '≱', "nges": '⩾' '\u{338}', "ngtr": '≯', "nisd": '⋺', "njcy": 'њ',
                "nldr": '‥', "nleq": '≰', "nles": '⩽' '\u{338}', "nmid": '∤', "nopf": '𝕟', "npar": '∦', "npre": '⪯' '\u{338}',
                "nsce": '⪰' '\u{338}', "nscr": '𝓃', "nsim": '≁', "nsup": '⊅', "ntgl": '≹', "ntlg": '≸', "nvap": '≍' '\u{20d2}',
                "nvge": '≥' '\u{20d2}', "nvgt": '>' '\u{20d2}', "nvle": '≤' '\u{20d2}', "nvlt": '<' '\u{20d2}', "napid": '≋' '\u{338}',
                "napos": 'ŉ', "natur": '♮', "nbump": '≎' '\u{338}', "ncong": '≇', "neArr": '⇗', "nearr": '↗', "nedot": '≐' '\u{338}',
                "nesim": '≂' '\u{338}', "ngeqq": '≧' '\u{338}', "ngsim": '≵', "nhArr": '⇎', "nharr": '↮', "nhpar": '⫲', "nlArr": '⇍',
                "nlarr": '↚', "nleqq": '≦' '\u{338}', "nless": '≮', "nlsim": '≴', "nltri": '⋪', "notni": '∌', "npart": '∂' '\u{338}',
                "nprec": '⊀', "nrArr": '⇏', "nrarr": '↛', "nrtri": '⋫', "nsime": '≄', "nsmid": '∤', "nspar": '∦', "nsubE": '⫅' '\u{338}',
                "nsube": '⊈', "nsucc": '⊁', "nsupE": '⫆' '\u{338}', "nsupe": '⊉', "numsp": '\u{2007}', "nvsim": '∼' '\u{20d2}',
                "nwArr": '⇖', "nwarr": '↖', "nVDash": '⊯', "nVdash": '⊮', "nacute": 'ń', "nbumpe": '≏' '\u{338}', "ncaron": 'ň',
                "ncedil": 'ņ', "nearhk": '⤤', "nequiv": '≢', "nesear": '⤨', "nexist": '∄', "nltrie": '⋬', "notinE": '⋹' '\u{338}',
                "nparsl": '⫽' '\u{20e5}', "nprcue": '⋠', "nrarrc": '⤳' '\u{338}', "nrarrw": '↝' '\u{338}', "nrtrie": '⋭', "nsccue": '⋡',
                "nsimeq": '≄', "numero": '№', "nvDash": '⊭', "nvHarr": '⤄', "nvdash": '⊬', "nvlArr": '⤂', "nvrArr": '⤃', "nwarhk": '⤣',
                "nwnear": '⤧', "napprox": '≉', "natural": '♮', "nearrow": '↗', "nexists": '∄', "notinva": '∉', "notinvb": '⋷',
                "notinvc": '⋶', "notniva": '∌', "notnivb": '⋾', "notnivc": '⋽', "npolint": '⨔', "npreceq": '⪯' '\u{338}', "nsqsube": '⋢',
                "nsqsupe": '⋣', "nsubset": '⊂' '\u{20d2}', "nsucceq": '⪰' '\u{338}', "nsupset": '⊃' '\u{20d2}', "nvinfin": '⧞',
                "nvltrie": '⊴' '\u{20d2}', "nvrtrie": '⊵' '\u{20d2}', "nwarrow": '↖', "naturals": 'ℕ', "ncongdot": '⩭' '\u{338}',
                "notindot": '⋵' '\u{338}', "ngeqslant": '⩾' '\u{338}', "nleqslant": '⩽' '\u{338}', "nparallel": '∦', "nshortmid": '∤',
                "nsubseteq": '⊈', "nsupseteq": '⊉', "nLeftarrow": '⇍', "nleftarrow": '↚', "nsubseteqq": '⫅' '\u{338}',
                "nsupseteqq": '⫆' '\u{338}', "nRightarrow": '⇏', "nrightarrow": '↛', "ntriangleleft": '⋪', "nshortparallel": '∦',
                "ntriangleright": '⋫', "nLeftrightarrow": '⇎', "nleftrightarrow": '↮', "ntrianglelefteq": '⋬', "ntrianglerighteq": '⋭',
            ]
            [
                "or": '∨', "oelig": 'œ', "oline": '‾', "omega": 'ω', "oplus": '⊕', "otimes": '⊗', "omicron": 'ο', "oS": 'Ⓢ', "ocy": 'о',
                "ofr": '𝔬', "ogt": '⧁', "ohm": 'Ω', "olt": '⧀', "ord": '⩝', "orv": '⩛', "oast": '⊛', "ocir": '⊚', "odiv": '⨸', "odot": '⊙',
                "ogon": '˛', "oint": '∮', "omid": '⦶', "oopf": '𝕠', "opar": '⦷', "oror": '⩖', "oscr": 'ℴ', "osol": '⊘', "odash": '⊝',
                "ofcir": '⦿', "ohbar": '⦵', "olarr": '↺', "olcir": '⦾', "omacr": 'ō', "operp": '⦹', "orarr": '↻', "order": 'ℴ',
                "ovbar": '⌽', "odblac": 'ő', "odsold": '⦼', "ominus": '⊖', "origof": '⊶', "olcross": '⦻', "orderof": 'ℴ', "orslope": '⩗',
                "otimesas": '⨶',
            ]
            [
                "pi": 'π', "phi": 'φ', "piv": 'ϖ', "psi": 'ψ', "part": '∂', "perp": '⊥', "prod": '∏', "prop": '∝', "prime": '′',
                "permil": '‰', "pm": '±', "pr": '≺', "par": '∥', "pcy": 'п', "pfr": '𝔭', "prE": '⪳', "pre": '⪯', "phiv": 'ϕ', "plus": '+',
                "popf": '𝕡', "prap": '⪷', "prec": '≺', "prnE": '⪵', "pscr": '𝓅', "parsl": '⫽', "phone": '☎', "plusb": '⊞', "pluse": '⩲',
                "prcue": '≼', "prnap": '⪹', "prsim": '≾', "parsim": '⫳', "percnt": '%', "period": '.', "phmmat": 'ℳ', "planck": 'ℏ',
                "plankv": 'ℏ', "plusdo": '∔', "plusdu": '⨥', "preceq": '⪯', "primes": 'ℙ', "prnsim": '⋨', "propto": '∝', "prurel": '⊰',
                "puncsp": '\u{2008}', "pertenk": '‱', "planckh": 'ℎ', "pluscir": '⨢', "plussim": '⨦', "plustwo": '⨧', "precsim": '≾',
                "parallel": '∥', "plusacir": '⨣', "pointint": '⨕', "precneqq": '⪵', "precnsim": '⋨', "profalar": '⌮', "profline": '⌒',
                "profsurf": '⌓', "pitchfork": '⋔', "precapprox": '⪷', "preccurlyeq": '≼', "precnapprox": '⪹',
            ]
            [
                "qfr": '𝔮', "qint": '⨌', "qopf": '𝕢', "qscr": '𝓆', "quest": '?', "qprime": '⁗', "quatint": '⨖', "questeq": '≟',
                "quaternions": 'ℍ',
            ]
            [
                "rho": 'ρ', "rlm": '\u{200f}', "rArr": '⇒', "rang": '⟩', "rarr": '→', "real": 'ℜ', "radic": '√', "rceil": '⌉', "rdquo": '”',
                "rsquo": '’', "rfloor": '⌋', "rsaquo": '›', "rx": '℞', "rcy": 'р', "rfr": '𝔯', "rsh": '↱', "rHar": '⥤',
                "race": '∽' '\u{331}', "rcub": '}', "rdca": '⤷', "rdsh": '↳', "rect": '▭', "rhov": 'ϱ', "ring": '˚', "ropf": '𝕣',
                "rpar": ')', "rscr": '𝓇', "rsqb": ']', "rtri": '▹', "rAarr": '⇛', "rBarr": '⤏', "rangd": '⦒', "range": '⦥', "rarrb": '⇥',
                "rarrc": '⤳', "rarrw": '↝', "ratio": '∶', "rbarr": '⤍', "rbbrk": '❳', "rbrke": '⦌', "reals": 'ℝ', "rhard": '⇁',
                "rharu": '⇀', "rlarr": '⇄', "rlhar": '⇌', "rnmid": '⫮', "roang": '⟭', "roarr": '⇾', "robrk": '⟧', "ropar": '⦆',
                "rrarr": '⇉', "rtrie": '⊵', "rtrif": '▸', "rAtail": '⤜', "racute": 'ŕ', "rangle": '⟩', "rarrap": '⥵', "rarrfs": '⤞',
                "rarrhk": '↪', "rarrlp": '↬', "rarrpl": '⥅', "rarrtl": '↣', "ratail": '⤚', "rbrace": '}', "rbrack": ']', "rcaron": 'ř',
                "rcedil": 'ŗ', "rdquor": '”', "rfisht": '⥽', "rharul": '⥬', "rmoust": '⎱', "roplus": '⨮', "rpargt": '⦔', "rsquor": '’',
                "rthree": '⋌', "rtimes": '⋊', "rarrbfs": '⤠', "rarrsim": '⥴', "rbrksld": '⦎', "rbrkslu": '⦐', "rdldhar": '⥩',
                "realine": 'ℛ', "rotimes": '⨵', "ruluhar": '⥨', "raemptyv": '⦳', "realpart": 'ℜ', "rppolint": '⨒', "rtriltri": '⧎',
                "rationals": 'ℚ', "rightarrow": '→', "rmoustache": '⎱', "risingdotseq": '≓', "rightarrowtail": '↣', "rightharpoonup": '⇀',
                "rightleftarrows": '⇄', "rightsquigarrow": '↝', "rightthreetimes": '⋌', "rightharpoondown": '⇁', "rightrightarrows": '⇉',
                "rightleftharpoons": '⇌',
            ]
            [
                "sim": '∼', "sub": '⊂', "sum": '∑', "sup": '⊃', "sdot": '⋅', "sube": '⊆', "supe": '⊇', "sbquo": '‚', "sigma": 'σ',
                "scaron": 'š', "sigmaf": 'ς', "spades": '♠', "sc": '≻', "scE": '⪴', "sce": '⪰', "scy": 'с', "sfr": '𝔰', "smt": '⪪',
                "sol": '/', "squ": '□', "scap": '⪸', "scnE": '⪶', "semi": ';', "sext": '✶', "shcy": 'ш', "sime": '≃', "simg": '⪞',
                "siml": '⪝', "smid": '∣', "smte": '⪬', "solb": '⧄', "sopf": '𝕤', "spar": '∥', "squf": '▪', "sscr": '𝓈', "star": '☆',
                "subE": '⫅', "succ": '≻', "sung": '♪', "supE": '⫆', "sccue": '≽', "scirc": 'ŝ', "scnap": '⪺', "scsim": '≿', "sdotb": '⊡',
                "sdote": '⩦', "seArr": '⇘', "searr": '↘', "setmn": '∖', "sharp": '♯', "simeq": '≃', "simgE": '⪠', "simlE": '⪟',
                "simne": '≆', "slarr": '←', "smile": '⌣', "smtes": '⪬' '\u{fe00}', "sqcap": '⊓', "sqcup": '⊔', "sqsub": '⊏', "sqsup": '⊐',
                "srarr": '→', "starf": '★', "strns": '¯', "subnE": '⫋', "subne": '⊊', "supnE": '⫌', "supne": '⊋', "swArr": '⇙',
                "swarr": '↙', "sacute": 'ś', "scedil": 'ş', "scnsim": '⋩', "searhk": '⤥', "seswar": '⤩', "sfrown": '⌢', "shchcy": 'щ',
                "sigmav": 'ς', "simdot": '⩪', "smashp": '⨳', "softcy": 'ь', "solbar": '⌿', "sqcaps": '⊓' '\u{fe00}',
                "sqcups": '⊔' '\u{fe00}', "sqsube": '⊑', "sqsupe": '⊒', "square": '□', "squarf": '▪', "ssetmn": '∖', "ssmile": '⌣',
                "sstarf": '⋆', "subdot": '⪽', "subset": '⊂', "subsim": '⫇', "subsub": '⫕', "subsup": '⫓', "succeq": '⪰', "supdot": '⪾',
                "supset": '⊃', "supsim": '⫈', "supsub": '⫔', "supsup": '⫖', "swarhk": '⤦', "swnwar": '⤪', "searrow": '↘', "simplus": '⨤',
                "simrarr": '⥲', "subedot": '⫃', "submult": '⫁', "subplus": '⪿', "subrarr": '⥹', "succsim": '≿', "supdsub": '⫘',
                "supedot": '⫄', "suphsol": '⟉', "suphsub": '⫗', "suplarr": '⥻', "supmult": '⫂', "supplus": '⫀', "swarrow": '↙',
                "scpolint": '⨓', "setminus": '∖', "shortmid": '∣', "smeparsl": '⧤', "sqsubset": '⊏', "sqsupset": '⊐', "subseteq": '⊆',
                "succneqq": '⪶', "succnsim": '⋩', "supseteq": '⊇', "spadesuit": '♠', "subseteqq": '⫅', "subsetneq": '⊊', "supseteqq": '⫆',
                "supsetneq": '⊋', "sqsubseteq": '⊑', "sqsupseteq": '⊒', "subsetneqq": '⫋', "succapprox": '⪸', "supsetneqq": '⫌',
                "straightphi": 'ϕ', "succcurlyeq": '≽', "succnapprox": '⪺', "shortparallel": '∥', "smallsetminus": '∖',
                "straightepsilon": 'ϵ',
            ]
            [
                "tau": 'τ', "theta": 'θ', "tilde": '˜', "trade": '™', "there4": '∴', "thinsp": '\u{2009}', "thetasym": 'ϑ', "tcy": 'т',
                "tfr": '𝔱', "top": '⊤', "tbrk": '⎴', "tdot": '\u{20db}', "tint": '∭', "toea": '⤨', "topf": '𝕥', "tosa": '⤩', "trie": '≜',
                "tscr": '𝓉', "tscy": 'ц', "thkap": '≈', "trisb": '⧍', "tshcy": 'ћ', "twixt": '≬', "target": '⌖', "tcaron": 'ť',
                "tcedil": 'ţ', "telrec": '⌕', "thetav": 'ϑ', "thksim": '∼', "timesb": '⊠', "timesd": '⨰', "topbot": '⌶', "topcir": '⫱',
                "tprime": '‴', "tridot": '◬', "tstrok": 'ŧ', "topfork": '⫚', "triplus": '⨹', "tritime": '⨻', "thicksim": '∼',
                "timesbar": '⨱', "triangle": '▵', "triminus": '⨺', "trpezium": '⏢', "therefore": '∴', "triangleq": '≜', "thickapprox": '≈',
                "triangledown": '▿', "triangleleft": '◃', "triangleright": '▹', "trianglelefteq": '⊴', "trianglerighteq": '⊵',
                "twoheadleftarrow": '↞', "twoheadrightarrow": '↠',
            ]
            [
                "uArr": '⇑', "uarr": '↑', "upsih": 'ϒ', "upsilon": 'υ', "ucy": 'у', "ufr": '𝔲', "uHar": '⥣', "uopf": '𝕦', "upsi": 'υ',
                "uscr": '𝓊', "utri": '▵', "ubrcy": 'ў', "udarr": '⇅', "udhar": '⥮', "uharl": '↿', "uharr": '↾', "uhblk": '▀', "ultri": '◸',
                "umacr": 'ū', "uogon": 'ų', "uplus": '⊎', "uring": 'ů', "urtri": '◹', "utdot": '⋰', "utrif": '▴', "uuarr": '⇈',
                "ubreve": 'ŭ', "udblac": 'ű', "ufisht": '⥾', "ulcorn": '⌜', "ulcrop": '⌏', "urcorn": '⌝', "urcrop": '⌎', "utilde": 'ũ',
                "uparrow": '↑', "uwangle": '⦧', "ulcorner": '⌜', "urcorner": '⌝', "upuparrows": '⇈', "updownarrow": '↕',
                "upharpoonleft": '↿', "upharpoonright": '↾',
            ]
            [
                "vcy": 'в', "vee": '∨', "vfr": '𝔳', "vArr": '⇕', "vBar": '⫨', "varr": '↕', "vert": '|', "vopf": '𝕧', "vscr": '𝓋',
                "vBarv": '⫩', "vDash": '⊨', "varpi": 'ϖ', "vdash": '⊢', "veeeq": '≚', "vltri": '⊲', "vnsub": '⊂' '\u{20d2}',
                "vnsup": '⊃' '\u{20d2}', "vprop": '∝', "vrtri": '⊳', "vangrt": '⦜', "varphi": 'ϕ', "varrho": 'ϱ', "veebar": '⊻',
                "vellip": '⋮', "verbar": '|', "vsubnE": '⫋' '\u{fe00}', "vsubne": '⊊' '\u{fe00}', "vsupnE": '⫌' '\u{fe00}',
                "vsupne": '⊋' '\u{fe00}', "vzigzag": '⦚', "varkappa": 'ϰ', "varsigma": 'ς', "vartheta": 'ϑ', "varpropto": '∝',
                "varepsilon": 'ϵ', "varnothing": '∅', "varsubsetneq": '⊊' '\u{fe00}', "varsupsetneq": '⊋' '\u{fe00}',
                "varsubsetneqq": '⫋' '\u{fe00}', "varsupsetneqq": '⫌' '\u{fe00}', "vartriangleleft": '⊲', "vartriangleright": '⊳',
            ]
            [
                "weierp": '℘', "wp": '℘', "wr": '≀', "wfr": '𝔴', "wopf": '𝕨', "wscr": '𝓌', "wcirc": 'ŵ', "wedge": '∧', "wedbar": '⩟',
                "wedgeq": '≙', "wreath": '≀',
            ]
            [
                "xi": 'ξ', "xfr": '𝔵', "xcap": '⋂', "xcup": '⋃', "xmap": '⟼', "xnis": '⋻', "xopf": '𝕩', "xscr": '𝓍', "xvee": '⋁',
                "xcirc": '◯', "xdtri": '▽', "xhArr": '⟺', "xharr": '⟷', "xlArr": '⟸', "xlarr": '⟵', "xodot": '⨀', "xrArr": '⟹',
                "xrarr": '⟶', "xutri": '△', "xoplus": '⨁', "xotime": '⨂', "xsqcup": '⨆', "xuplus": '⨄', "xwedge": '⋀',
            ]
            ["ycy": 'ы', "yfr": '𝔶', "yacy": 'я', "yicy": 'ї', "yopf": '𝕪', "yscr": '𝓎', "yucy": 'ю', "ycirc": 'ŷ',]
            [
                "zwj": '\u{200d}', "zeta": 'ζ', "zwnj": '\u{200c}', "zcy": 'з', "zfr": '𝔷', "zdot": 'ż', "zhcy": 'ж', "zopf": '𝕫',
                "zscr": '𝓏', "zacute": 'ź', "zcaron": 'ž', "zeetrf": 'ℨ', "zigrarr": '⇝',
            ]
        }
    };
}

/// The names of each group, each after the one before.
pub(crate) static OTHER_NAMES: [&str; 58] = other_rows!(names_column);

/// The characters for each name.
pub(crate) static OTHER_REFERENCES: [&[Reference]; 58] = other_rows!(references_column);

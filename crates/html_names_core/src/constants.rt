//! The constants of names, one per line. The identifier of each is the text of the name, with `_`
//! for `-`, and with a `_` at the end if the text is a keyword.
#![allow(non_upper_case_globals)]

/// The constants of HTML's tag names, and the tests for kinds of elements.
///
/// The kinds follow this project's profile of HTML Standard 3.2.5 and 13.1.2.
#[rattlefmt::skip]
pub mod tag {
    use crate::html_tag::HtmlTag;
    use crate::name::Name::Known;
    use crate::table::TagNumber;

    pub use crate::kind::{
        is_embedded_content, is_escapable_raw, is_flow_content, is_foreign, is_foreign_self_closing,
        is_heading_content, is_interactive_content, is_metadata_content, is_palpable_content,
        is_phrasing_content, is_raw, is_replaced, is_script_supporting_element,
        is_sectioning_content, is_void, is_whitespace_collapsing, should_group_into_pars,
    };

    macro_rules! known {
        ($name:ident) => {
            HtmlTag { name: Known(TagNumber::$name as u8) }
        };
    }

    pub const a: HtmlTag = known!(a);
    pub const abbr: HtmlTag = known!(abbr);
    pub const address: HtmlTag = known!(address);
    pub const area: HtmlTag = known!(area);
    pub const article: HtmlTag = known!(article);
    pub const aside: HtmlTag = known!(aside);
    pub const audio: HtmlTag = known!(audio);
    pub const b: HtmlTag = known!(b);
    pub const base: HtmlTag = known!(base);
    pub const bdi: HtmlTag = known!(bdi);
    pub const bdo: HtmlTag = known!(bdo);
    pub const blockquote: HtmlTag = known!(blockquote);
    pub const body: HtmlTag = known!(body);
    pub const br: HtmlTag = known!(br);
    pub const button: HtmlTag = known!(button);
    pub const canvas: HtmlTag = known!(canvas);
    pub const caption: HtmlTag = known!(caption);
    pub const cite: HtmlTag = known!(cite);
    pub const code: HtmlTag = known!(code);
    pub const col: HtmlTag = known!(col);
    pub const colgroup: HtmlTag = known!(colgroup);
    pub const data: HtmlTag = known!(data);
    pub const datalist: HtmlTag = known!(datalist);
    pub const dd: HtmlTag = known!(dd);
    pub const del: HtmlTag = known!(del);
    pub const details: HtmlTag = known!(details);
    pub const dfn: HtmlTag = known!(dfn);
    pub const dialog: HtmlTag = known!(dialog);
    pub const div: HtmlTag = known!(div);
    pub const dl: HtmlTag = known!(dl);
    pub const dt: HtmlTag = known!(dt);
    pub const em: HtmlTag = known!(em);
    pub const embed: HtmlTag = known!(embed);
    pub const fieldset: HtmlTag = known!(fieldset);
    pub const figcaption: HtmlTag = known!(figcaption);
    pub const figure: HtmlTag = known!(figure);
    pub const footer: HtmlTag = known!(footer);
    pub const form: HtmlTag = known!(form);
    pub const h1: HtmlTag = known!(h1);
    pub const h2: HtmlTag = known!(h2);
    pub const h3: HtmlTag = known!(h3);
    pub const h4: HtmlTag = known!(h4);
    pub const h5: HtmlTag = known!(h5);
    pub const h6: HtmlTag = known!(h6);
    pub const head: HtmlTag = known!(head);
    pub const header: HtmlTag = known!(header);
    pub const hgroup: HtmlTag = known!(hgroup);
    pub const hr: HtmlTag = known!(hr);
    pub const html: HtmlTag = known!(html);
    pub const i: HtmlTag = known!(i);
    pub const iframe: HtmlTag = known!(iframe);
    pub const img: HtmlTag = known!(img);
    pub const input: HtmlTag = known!(input);
    pub const ins: HtmlTag = known!(ins);
    pub const kbd: HtmlTag = known!(kbd);
    pub const label: HtmlTag = known!(label);
    pub const legend: HtmlTag = known!(legend);
    pub const li: HtmlTag = known!(li);
    pub const link: HtmlTag = known!(link);
    pub const main: HtmlTag = known!(main);
    pub const map: HtmlTag = known!(map);
    pub const mark: HtmlTag = known!(mark);
    pub const menu: HtmlTag = known!(menu);
    pub const meta: HtmlTag = known!(meta);
    pub const meter: HtmlTag = known!(meter);
    pub const nav: HtmlTag = known!(nav);
    pub const noscript: HtmlTag = known!(noscript);
    pub const object: HtmlTag = known!(object);
    pub const ol: HtmlTag = known!(ol);
    pub const optgroup: HtmlTag = known!(optgroup);
    pub const option: HtmlTag = known!(option);
    pub const output: HtmlTag = known!(output);
    pub const p: HtmlTag = known!(p);
    pub const picture: HtmlTag = known!(picture);
    pub const pre: HtmlTag = known!(pre);
    pub const progress: HtmlTag = known!(progress);
    pub const q: HtmlTag = known!(q);
    pub const rp: HtmlTag = known!(rp);
    pub const rt: HtmlTag = known!(rt);
    pub const ruby: HtmlTag = known!(ruby);
    pub const s: HtmlTag = known!(s);
    pub const samp: HtmlTag = known!(samp);
    pub const script: HtmlTag = known!(script);
    pub const search: HtmlTag = known!(search);
    pub const section: HtmlTag = known!(section);
    pub const select: HtmlTag = known!(select);
    pub const slot: HtmlTag = known!(slot);
    pub const small: HtmlTag = known!(small);
    pub const source: HtmlTag = known!(source);
    pub const span: HtmlTag = known!(span);
    pub const strong: HtmlTag = known!(strong);
    pub const style: HtmlTag = known!(style);
    pub const sub: HtmlTag = known!(sub);
    pub const summary: HtmlTag = known!(summary);
    pub const sup: HtmlTag = known!(sup);
    pub const table: HtmlTag = known!(table);
    pub const tbody: HtmlTag = known!(tbody);
    pub const td: HtmlTag = known!(td);
    pub const template: HtmlTag = known!(template);
    pub const textarea: HtmlTag = known!(textarea);
    pub const tfoot: HtmlTag = known!(tfoot);
    pub const th: HtmlTag = known!(th);
    pub const thead: HtmlTag = known!(thead);
    pub const time: HtmlTag = known!(time);
    pub const title: HtmlTag = known!(title);
    pub const tr: HtmlTag = known!(tr);
    pub const track: HtmlTag = known!(track);
    pub const u: HtmlTag = known!(u);
    pub const ul: HtmlTag = known!(ul);
    pub const var: HtmlTag = known!(var);
    pub const video: HtmlTag = known!(video);
    pub const wbr: HtmlTag = known!(wbr);

    /// The constants of MathML's tag names, and the tests for kinds of its elements.
    pub mod mathml {
        use crate::html_tag::HtmlTag;
        use crate::name::Name::Known;
        use crate::table::TagNumber;

        pub use crate::kind::{is_mathml, is_token};

        pub const annotation: HtmlTag = known!(annotation);
        pub const annotation_xml: HtmlTag = known!(annotation_xml);
        pub const maction: HtmlTag = known!(maction);
        pub const math: HtmlTag = known!(math);
        pub const merror: HtmlTag = known!(merror);
        pub const mfrac: HtmlTag = known!(mfrac);
        pub const mi: HtmlTag = known!(mi);
        pub const mmultiscripts: HtmlTag = known!(mmultiscripts);
        pub const mn: HtmlTag = known!(mn);
        pub const mo: HtmlTag = known!(mo);
        pub const mover: HtmlTag = known!(mover);
        pub const mpadded: HtmlTag = known!(mpadded);
        pub const mphantom: HtmlTag = known!(mphantom);
        pub const mprescripts: HtmlTag = known!(mprescripts);
        pub const mroot: HtmlTag = known!(mroot);
        pub const mrow: HtmlTag = known!(mrow);
        pub const ms: HtmlTag = known!(ms);
        pub const mspace: HtmlTag = known!(mspace);
        pub const msqrt: HtmlTag = known!(msqrt);
        pub const mstyle: HtmlTag = known!(mstyle);
        pub const msub: HtmlTag = known!(msub);
        pub const msubsup: HtmlTag = known!(msubsup);
        pub const msup: HtmlTag = known!(msup);
        pub const mtable: HtmlTag = known!(mtable);
        pub const mtd: HtmlTag = known!(mtd);
        pub const mtext: HtmlTag = known!(mtext);
        pub const mtr: HtmlTag = known!(mtr);
        pub const munder: HtmlTag = known!(munder);
        pub const munderover: HtmlTag = known!(munderover);
        pub const semantics: HtmlTag = known!(semantics);
    }
}

/// The constants of HTML's attribute names, and the tests for kinds of attributes.
#[rattlefmt::skip]
pub mod attr {
    use crate::html_attr::HtmlAttr;
    use crate::name::Name::Known;
    use crate::table::AttrNumber;

    pub use crate::attr_kind::{is_event_handler, is_known};

    macro_rules! known {
        ($name:ident) => {
            HtmlAttr { name: Known(AttrNumber::$name as u8) }
        };
    }

    pub const abbr: HtmlAttr = known!(abbr);
    pub const accept: HtmlAttr = known!(accept);
    pub const accept_charset: HtmlAttr = known!(accept_charset);
    pub const accesskey: HtmlAttr = known!(accesskey);
    pub const action: HtmlAttr = known!(action);
    pub const allow: HtmlAttr = known!(allow);
    pub const allowfullscreen: HtmlAttr = known!(allowfullscreen);
    pub const alpha: HtmlAttr = known!(alpha);
    pub const alt: HtmlAttr = known!(alt);
    pub const aria_activedescendant: HtmlAttr = known!(aria_activedescendant);
    pub const aria_atomic: HtmlAttr = known!(aria_atomic);
    pub const aria_autocomplete: HtmlAttr = known!(aria_autocomplete);
    pub const aria_busy: HtmlAttr = known!(aria_busy);
    pub const aria_checked: HtmlAttr = known!(aria_checked);
    pub const aria_colcount: HtmlAttr = known!(aria_colcount);
    pub const aria_colindex: HtmlAttr = known!(aria_colindex);
    pub const aria_colspan: HtmlAttr = known!(aria_colspan);
    pub const aria_controls: HtmlAttr = known!(aria_controls);
    pub const aria_current: HtmlAttr = known!(aria_current);
    pub const aria_describedby: HtmlAttr = known!(aria_describedby);
    pub const aria_details: HtmlAttr = known!(aria_details);
    pub const aria_disabled: HtmlAttr = known!(aria_disabled);
    pub const aria_errormessage: HtmlAttr = known!(aria_errormessage);
    pub const aria_expanded: HtmlAttr = known!(aria_expanded);
    pub const aria_flowto: HtmlAttr = known!(aria_flowto);
    pub const aria_haspopup: HtmlAttr = known!(aria_haspopup);
    pub const aria_hidden: HtmlAttr = known!(aria_hidden);
    pub const aria_invalid: HtmlAttr = known!(aria_invalid);
    pub const aria_keyshortcuts: HtmlAttr = known!(aria_keyshortcuts);
    pub const aria_label: HtmlAttr = known!(aria_label);
    pub const aria_labelledby: HtmlAttr = known!(aria_labelledby);
    pub const aria_level: HtmlAttr = known!(aria_level);
    pub const aria_live: HtmlAttr = known!(aria_live);
    pub const aria_modal: HtmlAttr = known!(aria_modal);
    pub const aria_multiline: HtmlAttr = known!(aria_multiline);
    pub const aria_multiselectable: HtmlAttr = known!(aria_multiselectable);
    pub const aria_orientation: HtmlAttr = known!(aria_orientation);
    pub const aria_owns: HtmlAttr = known!(aria_owns);
    pub const aria_placeholder: HtmlAttr = known!(aria_placeholder);
    pub const aria_posinset: HtmlAttr = known!(aria_posinset);
    pub const aria_pressed: HtmlAttr = known!(aria_pressed);
    pub const aria_readonly: HtmlAttr = known!(aria_readonly);
    pub const aria_relevant: HtmlAttr = known!(aria_relevant);
    pub const aria_required: HtmlAttr = known!(aria_required);
    pub const aria_roledescription: HtmlAttr = known!(aria_roledescription);
    pub const aria_rowcount: HtmlAttr = known!(aria_rowcount);
    pub const aria_rowindex: HtmlAttr = known!(aria_rowindex);
    pub const aria_rowspan: HtmlAttr = known!(aria_rowspan);
    pub const aria_selected: HtmlAttr = known!(aria_selected);
    pub const aria_setsize: HtmlAttr = known!(aria_setsize);
    pub const aria_sort: HtmlAttr = known!(aria_sort);
    pub const aria_valuemax: HtmlAttr = known!(aria_valuemax);
    pub const aria_valuemin: HtmlAttr = known!(aria_valuemin);
    pub const aria_valuenow: HtmlAttr = known!(aria_valuenow);
    pub const aria_valuetext: HtmlAttr = known!(aria_valuetext);
    pub const as_: HtmlAttr = known!(as_);
    pub const async_: HtmlAttr = known!(async_);
    pub const autocapitalize: HtmlAttr = known!(autocapitalize);
    pub const autocomplete: HtmlAttr = known!(autocomplete);
    pub const autocorrect: HtmlAttr = known!(autocorrect);
    pub const autofocus: HtmlAttr = known!(autofocus);
    pub const autoplay: HtmlAttr = known!(autoplay);
    pub const blocking: HtmlAttr = known!(blocking);
    pub const charset: HtmlAttr = known!(charset);
    pub const checked: HtmlAttr = known!(checked);
    pub const cite: HtmlAttr = known!(cite);
    pub const class: HtmlAttr = known!(class);
    pub const closedby: HtmlAttr = known!(closedby);
    pub const color: HtmlAttr = known!(color);
    pub const colorspace: HtmlAttr = known!(colorspace);
    pub const cols: HtmlAttr = known!(cols);
    pub const colspan: HtmlAttr = known!(colspan);
    pub const command: HtmlAttr = known!(command);
    pub const commandfor: HtmlAttr = known!(commandfor);
    pub const content: HtmlAttr = known!(content);
    pub const contenteditable: HtmlAttr = known!(contenteditable);
    pub const controls: HtmlAttr = known!(controls);
    pub const coords: HtmlAttr = known!(coords);
    pub const crossorigin: HtmlAttr = known!(crossorigin);
    pub const data: HtmlAttr = known!(data);
    pub const datetime: HtmlAttr = known!(datetime);
    pub const decoding: HtmlAttr = known!(decoding);
    pub const default: HtmlAttr = known!(default);
    pub const defer: HtmlAttr = known!(defer);
    pub const dir: HtmlAttr = known!(dir);
    pub const dirname: HtmlAttr = known!(dirname);
    pub const disabled: HtmlAttr = known!(disabled);
    pub const download: HtmlAttr = known!(download);
    pub const draggable: HtmlAttr = known!(draggable);
    pub const enctype: HtmlAttr = known!(enctype);
    pub const enterkeyhint: HtmlAttr = known!(enterkeyhint);
    pub const fetchpriority: HtmlAttr = known!(fetchpriority);
    pub const for_: HtmlAttr = known!(for_);
    pub const form: HtmlAttr = known!(form);
    pub const formaction: HtmlAttr = known!(formaction);
    pub const formenctype: HtmlAttr = known!(formenctype);
    pub const formmethod: HtmlAttr = known!(formmethod);
    pub const formnovalidate: HtmlAttr = known!(formnovalidate);
    pub const formtarget: HtmlAttr = known!(formtarget);
    pub const headers: HtmlAttr = known!(headers);
    pub const height: HtmlAttr = known!(height);
    pub const hidden: HtmlAttr = known!(hidden);
    pub const high: HtmlAttr = known!(high);
    pub const href: HtmlAttr = known!(href);
    pub const hreflang: HtmlAttr = known!(hreflang);
    pub const http_equiv: HtmlAttr = known!(http_equiv);
    pub const id: HtmlAttr = known!(id);
    pub const imagesizes: HtmlAttr = known!(imagesizes);
    pub const imagesrcset: HtmlAttr = known!(imagesrcset);
    pub const inert: HtmlAttr = known!(inert);
    pub const inputmode: HtmlAttr = known!(inputmode);
    pub const integrity: HtmlAttr = known!(integrity);
    pub const is: HtmlAttr = known!(is);
    pub const ismap: HtmlAttr = known!(ismap);
    pub const itemid: HtmlAttr = known!(itemid);
    pub const itemprop: HtmlAttr = known!(itemprop);
    pub const itemref: HtmlAttr = known!(itemref);
    pub const itemscope: HtmlAttr = known!(itemscope);
    pub const itemtype: HtmlAttr = known!(itemtype);
    pub const kind: HtmlAttr = known!(kind);
    pub const label: HtmlAttr = known!(label);
    pub const lang: HtmlAttr = known!(lang);
    pub const list: HtmlAttr = known!(list);
    pub const loading: HtmlAttr = known!(loading);
    pub const loop_: HtmlAttr = known!(loop_);
    pub const low: HtmlAttr = known!(low);
    pub const max: HtmlAttr = known!(max);
    pub const maxlength: HtmlAttr = known!(maxlength);
    pub const media: HtmlAttr = known!(media);
    pub const method: HtmlAttr = known!(method);
    pub const min: HtmlAttr = known!(min);
    pub const minlength: HtmlAttr = known!(minlength);
    pub const multiple: HtmlAttr = known!(multiple);
    pub const muted: HtmlAttr = known!(muted);
    pub const name: HtmlAttr = known!(name);
    pub const nomodule: HtmlAttr = known!(nomodule);
    pub const nonce: HtmlAttr = known!(nonce);
    pub const novalidate: HtmlAttr = known!(novalidate);
    pub const open: HtmlAttr = known!(open);
    pub const optimum: HtmlAttr = known!(optimum);
    pub const pattern: HtmlAttr = known!(pattern);
    pub const ping: HtmlAttr = known!(ping);
    pub const placeholder: HtmlAttr = known!(placeholder);
    pub const playsinline: HtmlAttr = known!(playsinline);
    pub const popover: HtmlAttr = known!(popover);
    pub const popovertarget: HtmlAttr = known!(popovertarget);
    pub const popovertargetaction: HtmlAttr = known!(popovertargetaction);
    pub const poster: HtmlAttr = known!(poster);
    pub const preload: HtmlAttr = known!(preload);
    pub const readonly: HtmlAttr = known!(readonly);
    pub const referrerpolicy: HtmlAttr = known!(referrerpolicy);
    pub const rel: HtmlAttr = known!(rel);
    pub const required: HtmlAttr = known!(required);
    pub const reversed: HtmlAttr = known!(reversed);
    pub const role: HtmlAttr = known!(role);
    pub const rows: HtmlAttr = known!(rows);
    pub const rowspan: HtmlAttr = known!(rowspan);
    pub const sandbox: HtmlAttr = known!(sandbox);
    pub const scope: HtmlAttr = known!(scope);
    pub const selected: HtmlAttr = known!(selected);
    pub const shadowrootclonable: HtmlAttr = known!(shadowrootclonable);
    pub const shadowrootcustomelementregistry: HtmlAttr = known!(shadowrootcustomelementregistry);
    pub const shadowrootdelegatesfocus: HtmlAttr = known!(shadowrootdelegatesfocus);
    pub const shadowrootmode: HtmlAttr = known!(shadowrootmode);
    pub const shadowrootserializable: HtmlAttr = known!(shadowrootserializable);
    pub const shape: HtmlAttr = known!(shape);
    pub const size: HtmlAttr = known!(size);
    pub const sizes: HtmlAttr = known!(sizes);
    pub const slot: HtmlAttr = known!(slot);
    pub const span: HtmlAttr = known!(span);
    pub const spellcheck: HtmlAttr = known!(spellcheck);
    pub const src: HtmlAttr = known!(src);
    pub const srcdoc: HtmlAttr = known!(srcdoc);
    pub const srclang: HtmlAttr = known!(srclang);
    pub const srcset: HtmlAttr = known!(srcset);
    pub const start: HtmlAttr = known!(start);
    pub const step: HtmlAttr = known!(step);
    pub const style: HtmlAttr = known!(style);
    pub const tabindex: HtmlAttr = known!(tabindex);
    pub const target: HtmlAttr = known!(target);
    pub const title: HtmlAttr = known!(title);
    pub const translate: HtmlAttr = known!(translate);
    pub const type_: HtmlAttr = known!(type_);
    pub const usemap: HtmlAttr = known!(usemap);
    pub const value: HtmlAttr = known!(value);
    pub const width: HtmlAttr = known!(width);
    pub const wrap: HtmlAttr = known!(wrap);
    pub const writingsuggestions: HtmlAttr = known!(writingsuggestions);

    /// The constants of MathML's attribute names.
    pub mod mathml {
        use crate::html_attr::HtmlAttr;
        use crate::name::Name::Known;
        use crate::table::AttrNumber;

        pub use super::{form, height, rowspan, width};

        pub const accent: HtmlAttr = known!(accent);
        pub const accentunder: HtmlAttr = known!(accentunder);
        pub const columnspan: HtmlAttr = known!(columnspan);
        pub const display: HtmlAttr = known!(display);
        pub const displaystyle: HtmlAttr = known!(displaystyle);
        pub const fence: HtmlAttr = known!(fence);
        pub const largeop: HtmlAttr = known!(largeop);
        pub const linethickness: HtmlAttr = known!(linethickness);
        pub const lspace: HtmlAttr = known!(lspace);
        pub const mathvariant: HtmlAttr = known!(mathvariant);
        pub const maxsize: HtmlAttr = known!(maxsize);
        pub const minsize: HtmlAttr = known!(minsize);
        pub const movablelimits: HtmlAttr = known!(movablelimits);
        pub const rspace: HtmlAttr = known!(rspace);
        pub const scriptlevel: HtmlAttr = known!(scriptlevel);
        pub const separator: HtmlAttr = known!(separator);
        pub const stretchy: HtmlAttr = known!(stretchy);
        pub const symmetric: HtmlAttr = known!(symmetric);
    }
}

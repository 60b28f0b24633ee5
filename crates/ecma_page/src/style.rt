//! How a page looks. Made by `scripts/frame write` from `web/page.css`.

/// The style.
pub(crate) const STYLE: &str = r#":root {
    color-scheme: light dark;
    --ground: light-dark(#ffffff, #16181d);
    --panel: light-dark(#f4f5f7, #1f2229);
    --ink: light-dark(#1d2129, #dfe3ea);
    --faint: light-dark(#565e6a, #b4bcc8);
    --line: light-dark(#d5d9df, #363b45);
    --edge: light-dark(#767e8a, #8a93a1);
    --lit: light-dark(#ffe9a8, #4d3f14);
    --cursor: light-dark(#d6e7ff, #1f3a60);
    --kind: light-dark(#6f3fb3, #cdb0ff);
    --field: light-dark(#0a6346, #86dab8);
    --wrong: light-dark(#b51a17, #ff9a93);
    --noted: light-dark(#1a5bbd, #8fc0ff);
}
:root[data-theme=light] { color-scheme: light; }
:root[data-theme=dark] { color-scheme: dark; }
* { box-sizing: border-box; }
html, body { height: 100%; margin: 0; }
body { display: flex; flex-direction: column; background: var(--ground); color: var(--ink); font: 14px/20px system-ui, sans-serif; }
[hidden] { display: none !important; }
header { display: flex; flex-wrap: wrap; gap: 4px 16px; align-items: baseline; padding: 8px 12px; background: var(--panel); border-bottom: 1px solid var(--line); }
h1 { margin: 0; font-size: 16px; overflow-wrap: anywhere; }
summary { cursor: pointer; }
select, input, button { font: inherit; color: var(--ink); background: var(--ground); border: 1px solid var(--edge); border-radius: 3px; }
button { cursor: pointer; }
input::placeholder { color: var(--faint); opacity: 1; }
:focus-visible { outline: 2px solid var(--noted); outline-offset: 1px; }
header details { position: relative; }
header details > :not(summary) { position: absolute; z-index: 2; left: 0; width: max-content; max-width: 90vw; margin: 0; padding: 8px 12px; background: var(--panel); border: 1px solid var(--line); }
header details label { display: block; }
dl { display: grid; grid-template-columns: auto 1fr; gap: 2px 12px; }
dt { font-weight: 600; }
dd { margin: 0; }
#state { margin-left: auto; color: var(--faint); }
#limit { width: 5em; }
#told { flex: none; max-height: min(30vh, 182px); overflow: auto; border-bottom: 1px solid var(--line); }
#list { margin: 0; padding: 0; list-style: none; font: 13px/20px ui-monospace, monospace; }
#list:focus-visible, #nodes:focus-visible, .source:focus-visible, textarea:focus-visible { outline: 2px solid var(--noted); outline-offset: -2px; }
#list li { padding: 0 12px 0 24px; text-indent: -12px; overflow-wrap: anywhere; cursor: pointer; }
#list li:hover { background: var(--lit); }
#list li[aria-selected=true] { background: var(--cursor); }
#list .note { display: block; padding-left: 24px; color: var(--noted); }
#further, #untold { margin: 2px 12px; }
#untold { color: var(--faint); }
main { flex: 1; min-height: 0; display: grid; grid-template-columns: minmax(0, 3fr) minmax(0, 2fr); grid-template-rows: minmax(0, 1fr); }
#editor { display: flex; min-width: 0; min-height: 0; font: 13px/20px ui-monospace, monospace; }
#margin { flex: none; overflow: hidden; padding: 0 8px 0 12px; text-align: right; color: var(--faint); background: var(--panel); }
#margin > div, #layer > div { min-height: 20px; }
#sheet { position: relative; flex: 1; min-width: 0; overflow: hidden; }
#layer { position: absolute; top: 0; left: 0; min-width: 100%; }
#layer > div { height: 20px; }
#layer, textarea { padding: 0 12px; border: 0; font: inherit; letter-spacing: 0; tab-size: 4; white-space: pre; }
#layer { color: transparent; pointer-events: none; }
textarea { position: absolute; inset: 0; width: 100%; height: 100%; margin: 0; resize: none; background: none; color: var(--ink); border-radius: 0; overflow: auto; }
textarea::selection { background: var(--cursor); color: var(--ink); }
.source { position: relative; overflow: auto; min-width: 0; min-height: 0; font: 13px/20px ui-monospace, monospace; tab-size: 4; }
.source .row { cursor: text; }
.source .row::before { content: attr(data-line); position: sticky; left: 0; display: inline-block; box-sizing: border-box; width: calc(var(--digits) * 1ch + 20px); height: 20px; margin-right: 12px; padding: 0 8px 0 12px; text-align: right; vertical-align: top; color: var(--faint); background: var(--panel); }
.caret { background: var(--cursor); }
.source:focus .caret { box-shadow: inset 2px 0 0 var(--noted); }
.tail::after { content: '\00a0'; }
.hidden { unicode-bidi: isolate; }
.hidden::after { content: attr(data-code); padding: 0 2px; border: 1px solid var(--wrong); border-radius: 3px; color: var(--wrong); font-size: 10px; }
.wrong { text-decoration: underline wavy var(--wrong) 1px; text-underline-offset: 3px; text-decoration-skip-ink: none; }
.noted { text-decoration: underline dotted var(--noted) 2px; text-underline-offset: 3px; text-decoration-skip-ink: none; }
.lit { background: var(--lit); }
#side { display: flex; flex-direction: column; min-width: 0; min-height: 0; border-left: 1px solid var(--line); }
#tools { flex: none; display: flex; flex-wrap: wrap; gap: 4px 8px; align-items: center; padding: 4px 12px; border-bottom: 1px solid var(--line); }
#search { flex: 1 1 9em; min-width: 0; padding: 0 6px; }
#hits { color: var(--faint); }
#none { margin: 0; padding: 8px 12px; color: var(--faint); }
#nodes { position: relative; flex: 1; min-height: 0; overflow: auto; font: 13px/20px ui-monospace, monospace; }
.space { position: relative; }
.shown { position: absolute; top: 0; left: 0; width: max-content; min-width: 100%; }
.row { height: 20px; padding-right: 12px; white-space: pre; unicode-bidi: isolate; cursor: pointer; }
.row.cursor { background: var(--cursor); }
.row.lit { background: var(--lit); }
#nodes:focus .row.cursor { box-shadow: inset 0 0 0 1px var(--noted); }
.twist { display: inline-block; width: 2ch; color: var(--faint); }
.key, .place { color: var(--faint); }
.kind { color: var(--kind); }
.kind:hover, .called:hover { text-decoration: underline; }
.field { color: var(--field); unicode-bidi: isolate; }
.called { unicode-bidi: isolate; }
.rest { color: var(--noted); }
.severity { color: var(--wrong); }
footer { flex: none; min-height: 29px; padding: 4px 12px; background: var(--panel); border-top: 1px solid var(--line); color: var(--faint); white-space: nowrap; overflow: hidden; text-overflow: ellipsis; }
@media (max-width: 700px) {
    main { grid-template-columns: minmax(0, 1fr); grid-template-rows: minmax(0, 3fr) minmax(0, 2fr); }
    header { gap: 4px 12px; padding: 4px 8px; }
    #side { border-left: 0; border-top: 1px solid var(--line); }
    #told { max-height: 25vh; }
}
"#;

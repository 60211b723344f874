//! How the page looks and what it does. `make/look.py` writes this file from `look/page.css`.

/// The style of the page, and a line that says that there is a script.
pub(crate) const LOOK: &[u8] = b"\
<style>
:root {
  color-scheme: light dark; --bg: #fff; --fg: #15181c; --mute: #5f6874; --line: #e5e7eb;
  --soft: #f5f6f8; --link: #1f4fc4; --red: #b4232a; --green: #14734a; --amber: #8a5200; --tint: 24%;
  --k0: #3b70e4; --k1: #dd7a00; --k2: #0e9a78; --k3: #c0429c; --k4: #7b55d3; --k5: #858700;
  --k6: #b5533b; --k7: #5e7386;
}
@media screen and (prefers-color-scheme: dark) {
  :root {
    --bg: #0f1114; --fg: #e6e9ed; --mute: #98a1ad; --line: #262a31; --soft: #181b20;
    --link: #8fb2ff; --red: #ff8d88; --green: #62d29c; --amber: #efb45c; --tint: 38%; --k0: #6d98ff;
    --k1: #f2a043; --k2: #3cc9a4; --k3: #e57cc6; --k4: #a98bf5; --k5: #bcbe3e; --k6: #e08a72;
    --k7: #93a8bb;
  }
}
.k0 { --k: var(--k0) }
.k1 { --k: var(--k1) }
.k2 { --k: var(--k2) }
.k3 { --k: var(--k3) }
.k4 { --k: var(--k4) }
.k5 { --k: var(--k5) }
.k6 { --k: var(--k6) }
.k7 { --k: var(--k7) }
* { box-sizing: border-box }
[hidden] { display: none!important }
body {
  margin: 0; background: var(--bg); color: var(--fg);
  font: 13px/1.45 system-ui,-apple-system,\"Segoe UI\",Roboto,sans-serif;
  font-variant-numeric: tabular-nums; -webkit-text-size-adjust: 100%;
}
h1, h2, h3, h4, ol, ul, p, pre { margin: 0; padding: 0; font-size: inherit; list-style: none }
a { color: var(--link); text-decoration: none }
a:hover { text-decoration: underline }
em, i { font-style: normal }
pre, html:not(.js) li {
  font: 12px/1.55 ui-monospace,\"SF Mono\",Menlo,Consolas,monospace; white-space: pre-wrap;
}
small { font-weight: 400; font-size: 13px; color: var(--mute); margin-left: 8px }
button, input, select {
  font: inherit; color: inherit; background: var(--bg); border: 1px solid var(--line);
  border-radius: 6px; padding: 0 .6em; height: 30px;
}
button { cursor: pointer }
button:hover { background: var(--soft) }
:focus-visible { outline: 2px solid var(--link); outline-offset: -1px }
.none, .facts, footer, #count { color: var(--mute) }
.none { padding: 24px 0 }
/* head */
header {
  position: sticky; top: 0; z-index: 3; background: var(--bg); padding: 0 20px;
  border-bottom: 1px solid var(--line); display: flex; flex-wrap: wrap; align-items: center;
  column-gap: 28px;
}
h1 { font-size: 15px; letter-spacing: -.01em; line-height: 48px }
nav { display: flex; overflow-x: auto; scrollbar-width: none }
nav a { color: var(--mute); padding: 0 10px; line-height: 48px }
nav a:hover { color: var(--fg); text-decoration: none }
nav [aria-current] { color: var(--fg); font-weight: 600; box-shadow: inset 0 -2px var(--fg) }
form {
  flex-basis: 100%; display: flex; flex-wrap: wrap; gap: 8px; align-items: center;
  padding-bottom: 10px;
}
#words { flex: 1 1 16rem; max-width: 30rem }
#count { margin-left: auto }
.week { display: flex }
.week button { border-radius: 0; margin-left: -1px }
.week :first-child { border-radius: 6px 0 0 6px }
.week :last-child { border-radius: 0 6px 6px 0 }
.week [aria-pressed=true] { background: var(--fg); border-color: var(--fg); color: var(--bg) }
section { padding: 0 20px 40px; scroll-margin-top: 10rem }
section>h2, section>h3, .halves h3 { padding: 20px 0 6px; font-size: 14px }
.js #timetable>h2 { display: none }
html:not(.js) :is(form,.js-only) { display: none }
/* timetable: a line, its strip, its head */
#timetable { --cols: 6rem minmax(12.4rem,1fr) 8.6rem 5.8rem 5.4rem 10rem minmax(13rem,3.4fr) }
article, .row {
  border-bottom: 1px solid var(--line); content-visibility: auto; contain-intrinsic-size: auto 33px;
}
html:not(.js) #timetable article {
  display: grid; grid-template-columns: 5rem 1fr; gap: 16px; padding: 5px 0;
}
.js #timetable>article>pre { display: none }
.js #timetable>article:not(.in) { display: none; content-visibility: visible }
.js #timetable>article, .th {
  display: grid; grid-template-columns: var(--cols); column-gap: 14px; align-items: center;
  scroll-margin-top: calc(var(--top) + 30px);
}
.js #timetable>article:not(.open):hover { background: var(--soft) }
#timetable>.open { content-visibility: visible }
.th {
  position: sticky; top: var(--top); z-index: 2; background: var(--bg);
  border-bottom: 1px solid var(--line);
}
.th button { border: 0; padding: 0; height: 29px; font-size: 12px; color: var(--mute) }
.th [aria-pressed=true], .th button:hover { background: none; color: var(--fg); font-weight: 600 }
#timetable h3 button {
  all: unset; cursor: pointer; white-space: nowrap; font-weight: 600; line-height: 32px;
  padding-right: 10px;
}
#timetable h3 button:before {
  content: \"\"; display: inline-block; border: solid var(--mute); border-width: 0 1.5px 1.5px 0;
  padding: 2px; margin: 0 8px 2px 1px; transform: rotate(-45deg);
}
#timetable [aria-expanded=true]:before { transform: rotate(45deg) }
#timetable h3 button:focus-visible {
  outline: 2px solid var(--link); outline-offset: -3px; border-radius: 6px;
}
.js #timetable>article, .th { margin: 0 -6px; padding: 0 6px }
#timetable h3 button { margin-left: -5px; padding-left: 5px }
.rt, .ac { white-space: nowrap; overflow: hidden; text-overflow: ellipsis }
.rt i { color: var(--mute); margin: 0 .35em }
sup { font-size: .75em; line-height: 0; color: var(--amber); font-weight: 600; margin-left: 1px }
.tm { white-space: nowrap }
.dot {
  display: inline-block; width: 6px; height: 6px; border-radius: 50%; background: var(--k);
  margin-left: 5px;
}
.dy { letter-spacing: .32em; white-space: nowrap }
.dy i { opacity: .5 }
.ds { display: flex; justify-content: space-between; white-space: nowrap; color: var(--mute) }
.ds b { font-weight: 500; color: var(--fg) }
.st { align-self: stretch; padding: 6px 0; background: var(--axis) }
.st svg { display: block; width: 100%; height: 21px }
.st path { stroke: var(--k); stroke-width: 2px; vector-effect: non-scaling-stroke }
.axis { position: relative; height: 28px; font-size: 11px; line-height: 28px; color: var(--mute) }
.axis>* { position: absolute; padding-left: 4px }
.axis em {
  bottom: -1px; width: 7px; height: 7px; padding: 0; border-radius: 50%; background: var(--red);
  transform: translateX(-50%);
}
/* timetable: a flight that is open */
.more { grid-column: 1/-1; padding: 6px 0 22px }
.months { display: flex; flex-wrap: wrap; align-items: flex-start; gap: 14px 22px }
.months table { border-spacing: 1px; text-align: center; font-size: 11px; color: var(--mute) }
.months th { font-weight: 400 }
caption {
  text-align: left; font-weight: 600; padding: 0 0 2px 3px; font-size: 12px; color: var(--fg);
}
.months td { width: 23px; height: 21px; padding: 0; border-radius: 4px; position: relative }
.months td[class^=k], .key { background: color-mix(in srgb,var(--k) var(--tint),var(--bg)) }
.months a { display: block; line-height: 21px; border-radius: 4px; color: var(--fg) }
.months a:hover { box-shadow: inset 0 0 0 1.5px var(--k); text-decoration: none }
.months small {
  position: absolute; right: 1px; top: 0; margin: 0; font-size: 8px; line-height: 9px;
  font-weight: 700; color: inherit;
}
.months .mark { box-shadow: 0 0 0 1.5px var(--fg) }
.months .was a { text-decoration: underline; text-underline-offset: 2px }
.months s { color: var(--red) }
.months .now { outline: 1.5px solid var(--red); outline-offset: -1px }
.its, .halves {
  display: grid; grid-template-columns: repeat(auto-fill,minmax(min(100%,30rem),1fr)); gap: 0 40px;
}
.halves { align-items: start }
h4 { padding: 18px 0 4px }
.key {
  display: inline-block; min-width: 1.6em; text-align: center; border-radius: 4px;
  margin-right: 8px;
}
.t { border-collapse: collapse; width: 100% }
.t th { font-weight: 400; font-size: 12px; color: var(--mute); text-align: left }
.t :is(th,td) { padding: 4px 20px 4px 0; border-bottom: 1px solid var(--line); white-space: nowrap }
.t .w { width: 99%; padding-right: 0 }
.t .n { text-align: right }
.t small { margin: 0; font-size: 12px }
.per { display: flex; flex-wrap: wrap; gap: 2px 20px; color: var(--mute); padding-top: 6px }
.facts { padding-top: 12px }
/* day */
.pick { display: flex; flex-wrap: wrap; gap: 8px; align-items: center; padding: 14px 0 0 }
.pick h2 { font-size: 20px; letter-spacing: -.02em; margin-right: auto }
.big { font-weight: 600; font-size: 14px }
.note, .tag, #messages em { color: var(--amber); font-weight: 500 }
.off .note, .cancelled, .CNL { color: var(--red)!important }
.NEW, .new { color: var(--green)!important }
.off td:not(.note), .off>span:not(.note) { color: var(--mute); text-decoration: line-through }
.past, .past a { color: var(--mute) }
.t .now td {
  padding: 0; color: var(--red); font-weight: 600; font-size: 11px; line-height: 15px;
  border-bottom: 1.5px solid var(--red);
}
.row { display: grid; grid-template-columns: 6rem 1fr 8rem 14rem; column-gap: 14px; padding: 5px 0 }
/* changes, messages */
:is(#changes,#messages) article { padding: 10px 0; contain-intrinsic-size: auto 90px }
article.at { box-shadow: -3px 0 var(--link) }
.js #changes article { display: grid; grid-template-columns: 21rem 1fr; gap: 4px 24px }
.js #changes h3 { font-weight: 400 }
#changes h3 a { font-weight: 600; margin-right: 6px }
.minus { color: var(--mute) }
.minus b { color: var(--red); text-decoration: line-through }
.plus b { color: var(--green) }
.js #messages article {
  display: grid; grid-template-columns: minmax(0,1fr) minmax(0,25rem); gap: 2px 28px;
  align-items: start;
}
#messages h3 { grid-column: 1/-1 }
#messages pre { background: var(--soft); border-radius: 6px; padding: 8px 12px; columns: 11rem }
.js #messages li {
  display: grid; grid-template-columns: 3.4rem 5rem 14rem 1fr; column-gap: 10px; padding: 3px 0;
}
.act { font-size: 11px; line-height: 19px }
#messages em:before { content: \"\\b7\\a0\" }
/* network */
.figures { display: flex; flex-wrap: wrap; gap: 8px 44px; padding-top: 18px; color: var(--mute) }
.figures b {
  display: block; font-size: 24px; letter-spacing: -.02em; line-height: 1.2; color: var(--fg);
}
svg.cols, .spark {
  display: block; fill: var(--k0); width: 100%; height: 120px; background: var(--axis);
  border-bottom: 1px solid var(--line);
}
.spark { width: 140px; height: 18px; background: none; border: 0 }
.bar { display: block; height: 8px; border-radius: 2px; background: var(--k0); min-width: 1px }
footer { font-size: 12px; padding: 0 20px 24px }
kbd {
  font: inherit; border: 1px solid var(--line); border-radius: 4px; padding: 0 .4em;
  margin: 0 .4em 0 1.2em;
}
kbd:first-child { margin-left: 0 }
@media (max-width: 1080px) {
  #timetable { --cols: 6rem minmax(7rem,1fr) 8rem 5.8rem 5rem minmax(10rem,1.6fr) }
  #timetable .ds { display: none }
  .js #messages article { grid-template-columns: minmax(0,1fr) 13rem }
}
@media (max-width: 720px) {
  header, section, footer { padding-left: 14px; padding-right: 14px }
  header { position: static }
  h1 { line-height: 40px }
  nav { flex-basis: 100%; margin: 0 -10px }
  nav a { line-height: 36px; padding: 0 7px }
  form { padding-top: 10px }
  .week button { padding: 0 .5em }
  .th { top: 0 }
  .js #timetable>article, .th { grid-template-columns: 5.6rem 1fr 7.4rem; scroll-margin-top: 30px }
  .js #timetable>article { contain-intrinsic-size: auto 66px }
  .th span:not(:first-child):not(.axis span), footer, .row span:nth-child(3) { display: none }
  .th .axis { grid-column: 2/-1 }
  .tm, .js .ac { justify-self: end }
  .dy { order: 1; padding-bottom: 8px }
  .st { order: 2; grid-column: 2/-1 }
  .js .ac { display: none }
  .more { order: 4 }
  .row { grid-template-columns: 5rem 1fr }
  .row .note { grid-column: 2 }
  :is(.js #changes,.js #messages,html:not(.js) #timetable) article {
    grid-template-columns: minmax(0,1fr);
  }
  .js #messages li { grid-template-columns: 3rem 5rem 1fr }
  #messages li>:last-child { grid-column: 3 }
  .t :is(th,td) { padding-right: 12px }
  section .t { overflow-x: auto; display: block }
  .pick h2 { flex-basis: 100% }
  .pick input { width: 7.7rem }
  .pick select { flex: 1 }
  #day .t :nth-child(6), #network .w { display: none }
  #changes pre { font-size: 11px }
}
@media print {
  :root { color-scheme: light; --fg: #000; --mute: #444; --line: #bbb; --link: #000 }
  @page { margin: 12mm; size: landscape }
  body { font-size: 9pt }
  * { print-color-adjust: exact; -webkit-print-color-adjust: exact }
  header, .th { position: static }
  nav, footer, form, .pick>:not(h2) { display: none!important }
  header, section { padding: 0 }
  #timetable h3 button { line-height: 22px }
  .st { padding: 1px 0 }
  article, .row { content-visibility: visible!important; break-inside: avoid }
}
</style>
<script>document.documentElement.className = 'js';</script>
";

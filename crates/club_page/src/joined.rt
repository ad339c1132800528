//! What page/join.py makes of the files in page/.

ghost use Rattle.std.specs.Prelude.{◌≡◌};
ghost use Rattle.club_page.specs.Joined.{page_1, page_2, page_3, page_4, policy};

/// Part 1 of the page, in ASCII.
#[tactic(auto, unfolding(crate::specs::Joined::page_1))]
pub fn page_1() -> &'static str
    ensures { result.now ≡ page_1 }
{
    "<!doctype html>\n<html lang=en>\n<meta charset=utf-8>\
     \n<meta name=viewport content=\"width=device-width\">\n<meta name=color-scheme content=\"light dark\">\
     \n<meta name=theme-color content=\"#fffdf9\" media=\"(prefers-color-scheme: light)\">\
     \n<meta name=theme-color content=\"#262320\" media=\"(prefers-color-scheme: dark)\">\n<title>Club</title>\
     \n<link rel=icon id=icon type=image/svg+xml href=\"data:image/svg+xml,<svg xmlns='http://www.w3.org/2\
     000/svg' viewBox='0 0 64 64'><rect width='64' height='64' rx='13' fill='%231d5f4b'/>\
     <circle cx='23' cy='34' r='17' fill='%23fdf7ea'/>\
     <circle cx='23' cy='34' r='11' fill='none' stroke='%231d5f4b' stroke-width='2'/>\
     <path d='M45 13 54 18 58 51H32L36 18Z' fill='%23f7e3b2' stroke='%231d5f4b' stroke-width='3'/></svg>\
     \">\n<style>:root{color-scheme:light dark;--ground:light-dark(#f5f2ea,#1a1815);\
     --raised:light-dark(#fffdf9,#262320);--sunk:light-dark(#ebe6da,#131210);\
     --line:light-dark(#d9d2c2,#3d3832);--edge:light-dark(#857b68,#8d8373);\
     --ink:light-dark(#211d17,#ede7db);--faint:light-dark(#635a4b,#b0a594);\
     --accent:light-dark(#1d5f4b,#7cc7ac);--on-accent:light-dark(#fff,#0d1f18);\
     --wash:light-dark(#e0ede5,#1d3229);--late:light-dark(#a61b1b,#ff9d92);\
     --wash-late:light-dark(#fbe4df,#431f1b);--shade:light-dark(#3a2f1c1f,#0006);--round:.6rem;\
     font:100%/1.5 system-ui,\"Segoe UI\",Roboto,\"Hiragino Sans\",\"Noto Sans CJK JP\",sans-serif}\
     *{box-sizing:border-box}[hidden]{display:none !important}body{margin:0;min-height:100vh;\
     background:var(--ground);color:var(--ink);overflow-wrap:anywhere}header{display:flex;\
     flex-wrap:wrap;gap:.5rem 1rem;align-items:center;min-height:3.25rem;\
     padding:.4rem max(1rem,50vw - 35rem);background:var(--raised);border-bottom:1px solid var(--line)}\
     #brand{display:flex;gap:.6rem;align-items:center;margin-inline-end:auto;padding:.25rem 0;\
     color:inherit;font-weight:650;overflow-wrap:normal;text-decoration:none}.mark{flex:none;\
     width:2.6rem;fill:var(--accent)}.mark circle + circle{fill:none;stroke:var(--raised);\
     stroke-width:1.5}.sign-in #brand span{display:none}#badge:not(:empty){min-width:1.5rem;\
     padding:0 .4rem;border-radius:1rem;background:var(--accent);color:var(--on-accent);\
     font-size:.85rem;text-align:center}#open-settings{display:inline-flex;gap:.4rem;align-items:center}\
     main{display:flow-root;max-width:72rem;margin:auto;padding:.25rem 1rem 6rem}h1{margin:.75rem 0;\
     font-size:1.5rem;line-height:1.25}h1:focus{outline:0}h2{margin:1.5rem 0 .6rem;font-size:1.1rem;\
     line-height:1.3}p{margin:.5rem 0}a{color:var(--accent);text-underline-offset:.15em}\
     .faint{color:var(--faint);font-weight:400}.panel{padding:1rem 1.25rem;background:var(--raised);\
     border:1px solid var(--line);border-radius:var(--round)}button,select,input,.button{font:inherit;\
     color:inherit}button,select,input:not([type=checkbox]),.button{min-height:2.5rem;\
     padding:.3rem .9rem;background:var(--raised);border:1px solid var(--edge);border-radius:.4rem}\
     button,.button{display:inline-block;cursor:pointer;text-decoration:none}\
     .button{display:inline-grid;place-content:center}button:hover,.button:hover{background:var(--sunk)}\
     button.main{background:var(--accent);border-color:var(--accent);color:var(--on-accent);\
     font-weight:600}button.main:hover{border-color:var(--ink)}button.danger{color:var(--late)}\
     button.main.danger{background:var(--late);border-color:var(--late);color:var(--on-accent)}\
     button:disabled{color:var(--faint);background:none;border-style:dashed;cursor:default}\
     :focus-visible{outline:3px solid var(--accent);outline-offset:2px}label{display:block;\
     margin:.8rem 0}label > span:first-child{display:block;margin-bottom:.2rem;font-weight:600}label > \
     select,label > input:not([type=checkbox]){display:block;width:100%}.choice{display:flex;gap:.6rem;\
     align-items:start}[type=checkbox]{flex:none;width:1.15rem;height:1.15rem;margin:.2rem 0;\
     accent-color:var(--accent)}.icon{width:1.3rem;height:1.3rem;vertical-align:-.3rem;fill:none;\
     stroke:currentColor;stroke-width:2;stroke-linecap:round;stroke-linejoin:round}\
     #sign-in{max-width:25rem;margin:0 auto}.sign-in h1{max-width:25rem;margin:1.5rem auto 1rem}\
     #welcome{display:flex;gap:1rem;height:7.5rem;justify-content:center}#sign-in > button{width:100%}\
     #sign-in > .faint{font-size:.9rem}#notices{position:fixed;inset:auto 0 0;z-index:20;display:grid;\
     gap:.5rem;justify-items:center;\
     padding:.5rem max(.5rem,env(safe-area-inset-left)) max(.5rem,env(safe-area-inset-bottom));\
     pointer-events:none}#notices > :not(:empty){display:flex;flex-wrap:wrap;gap:.4rem .8rem;\
     align-items:center;max-width:46rem;padding:.5rem 1rem;background:var(--raised);\
     border:1px solid var(--edge);border-inline-start:.4rem solid var(--edge);\
     border-radius:var(--round);box-shadow:0 .3rem 1.2rem var(--shade);pointer-events:auto}#notices > \
     #wrong,#notices > #unsent{border-color:var(--late)}\
     @media (min-width:56.01em){#notices{inset:auto max(1rem,50vw - 36rem) 0 auto;width:25rem;\
     justify-items:stretch}}#notices p{flex:1 1 15rem;margin:.2rem 0}\
     dialog{width:min(26rem,100vw - 1.5rem);padding:1rem 1.25rem;background:var(--raised);color:inherit;\
     border:1px solid var(--edge);border-radius:var(--round);box-shadow:0 .5rem 2rem var(--shade)}\
     dialog h2{margin-top:0}dialog p:last-child,#options{display:flex;flex-wrap:wrap;gap:.6rem;\
     justify-content:end}#alerts-refused{margin:-.4rem 0 .8rem 1.75rem;color:var(--late)}\
     #sign-out{margin-inline-end:auto}#dialog{margin-bottom:1rem}#dialog::backdrop{background:none}\
     #settings::backdrop{background:#0006}@media (max-width:30em){#open-settings span{position:absolute;\
     clip-path:inset(50%);width:1px;overflow:hidden;white-space:nowrap}\
     #open-settings{padding:.3rem .6rem}}#news{position:absolute;clip-path:inset(50%)}\
     .count{margin-inline-start:.2rem;padding:0 .5rem;border-radius:1rem;background:var(--sunk);\
     color:var(--faint);font-size:.9rem;font-weight:600}ul.cards,ul.rows{margin:0;padding:0;\
     list-style:none}.cards{display:grid;\
     grid-template-columns:repeat(auto-fill,minmax(min(100%,20rem),1fr));gap:.75rem}\
     .card a{display:flex;flex-wrap:wrap;gap:.5rem .9rem;height:100%;min-height:8.4rem;padding:.7rem;\
     background:var(--raised);border:1px solid var(--line);border-radius:var(--round);color:inherit;\
     text-decoration:none}.card.mine a{border-inline-start:.35rem solid var(--accent)}\
     .card a:hover{border-color:var(--edge);box-shadow:0 .15rem .7rem var(--shade)}\
     .card .mini{flex:none;width:6.9rem}.facts{display:flex;flex:1 1 9rem;flex-direction:column;\
     align-items:start;min-width:0;line-height:1.35}.facts .faint{font-size:.9rem}.who{font-size:1.1rem;\
     font-weight:650}.facts .turn{margin-top:auto;color:var(--faint)}\
     .facts .turn.mine{color:var(--accent);font-weight:650}.late{color:var(--late);font-weight:650}\
     .tag{margin-top:.2rem;padding:0 .5rem;border-radius:.3rem;background:var(--wash);color:var(--ink);\
     font-size:.9rem}.mini{width:7.5rem;align-self:start;border-radius:.2rem;background:#ecd8b2}\
     .mini .dark{fill:#a77a52}.mini .last{fill:#c4a83f}.mini .one{fill:#fffaf0;stroke:#4a3a28;\
     stroke-width:.07}.mini .other{fill:#2b2723;stroke:#000;stroke-width:.07}.mini .kings{fill:#d29a1e}\
     .mini.shogi{background:#e2bd78}.mini.shogi .dark{fill:none}\
     .mini.shogi .one,.mini.shogi .other{fill:#fbeecb;stroke:#5b4320}.mini.shogi .other{fill:#a5783a}\
     .mini.shogi .kings{fill:#c0281c}.mini .lines{stroke:#94703a;stroke-width:.05}\
     .rows{background:var(--raised);border:1px solid var(--line);border-radius:var(--round)}\
     .rows li{display:flex;flex-wrap:wrap;gap:.2rem 1rem;align-items:center;min-height:3rem;\
     padding:.45rem 1rem}.rows li + li{border-top:1px solid var(--line)}.rows li > \
     :first-child{flex:1 1 8rem}.rows .mine{background:var(--wash)}\
     .rows .mine:first-child{border-radius:var(--round) var(--round) 0 0}.rows b:empty{display:none}\
     .rows b{min-width:2.2rem;margin-inline-start:auto;text-align:end}#search-games{max-width:20rem}\
     .number{display:inline-block;min-width:2.2rem;color:var(--faint)}.answers{display:flex;\
     flex-wrap:wrap;gap:.5rem;align-items:center}#below{display:grid;\
     grid-template-columns:repeat(auto-fit,minmax(min(100%,20rem),1fr));gap:0 1.5rem;align-items:start;\
     margin-top:1.5rem}#challenge h2{margin-top:0}#below > div > h2{margin-top:.5rem}\
     details{margin:1rem 0}summary{padding:.4rem 0;cursor:pointer;font-weight:650}.wide{overflow-x:auto;\
     border-radius:var(--round)}table{border-collapse:collapse;background:var(--raised);\
     font-variant-numeric:tabular-nums}td,th{padding:.35rem .6rem;border:1px solid var(--line);\
     text-align:center;overflow-wrap:normal}thead th{background:var(--sunk);font-size:.9rem}\
     tbody th{position:sticky;left:0;min-width:5.5rem;max-width:11rem;background:var(--raised);\
     text-align:start;overflow-wrap:anywhere}tr.mine > *{background:var(--wash)}.cell{min-width:2.4rem;\
     padding:0;white-space:nowrap}.cell a{display:inline-block;min-width:1.6rem;padding:.35rem .2rem;\
     text-decoration:none}.cell .running{color:var(--faint)}td.self{background:var(--sunk)}\
     .points{font-weight:700}.game h1{margin:.5rem 0;font-size:1.15rem}\
     #game{--board:max(min(100dvh - 12.5rem,46rem),17rem);display:grid;\
     grid-template-columns:min(var(--board),100% - 18.75rem) minmax(17rem,23rem);gap:1rem 1.75rem;\
     justify-content:center;align-items:start}\
     #game:has(.shogi){--board:max((100dvh - 13.5rem) * .93,17rem)}\
     @media (min-width:56.01em){.game h1{max-width:70rem;text-align:center}}.player{display:flex;\
     flex-wrap:wrap;gap:.3rem .8rem;align-items:center;min-height:2.9rem;padding:.2rem .1rem}.player > \
     :first-child{display:flex;flex:1 1 5.5rem;flex-wrap:wrap;gap:0 .5rem;align-items:baseline;\
     line-height:1.2}.dot{display:inline-block;margin-inline-end:.45rem;vertical-align:-.1rem;\
     width:.95rem;height:.95rem;border:2px solid var(--edge);border-radius:50%;background:#fffaf0}\
     .draughts .dot.side1{background:#26221e}.shogi .dot{width:1.05rem;height:1.05rem;border:0;\
     border-radius:0;background:var(--edge);clip-path:polygon(50% 0,86% 18%,100% 100%,0 100%,14% 18%)}\
     .shogi .dot::before{content:\"\";display:block;height:100%;background:#26221e;\
     clip-path:polygon(50% 16%,73% 28%,86% 90%,14% 90%,27% 28%)}\
     .shogi .dot.side1::before{background:#fffaf0}.clock{margin-inline-start:auto;padding:.15rem .6rem;\
     border-radius:.4rem;background:var(--sunk);color:var(--faint);font-variant-numeric:tabular-nums;\
     white-space:nowrap}.player.turn .clock{background:var(--wash);color:var(--ink);font-weight:650;\
     box-shadow:inset 0 0 0 1px var(--accent)}.player.turn .clock.low{background:var(--wash-late);\
     color:var(--late);box-shadow:inset 0 0 0 1px var(--late)}.hand{display:flex;order:1;flex:0 1 auto;\
     gap:.1rem;align-items:center;min-width:6rem;min-height:2.6rem;padding:0 .4rem;border-radius:.3rem;\
     background:#d3a962;box-shadow:inset 0 0 0 1px #8f6a2f}.shogi .clock{order:2}\
     #play .hand button{position:relative;flex:none;width:2.35rem;min-height:0;padding:0;border:0;\
     border-radius:.2rem;background:none}\
     .hand [data-count]:not([data-count=\"\"]){margin-inline-end:.5rem}\
     .hand [data-count]:not([data-count=\"\"])::after{content:attr(data-count);position:absolute;\
     right:-.5rem;bottom:0;min-width:1.05rem;border-radius:1rem;background:#2b2016;color:#fff;\
     font-size:.75rem;font-weight:700;line-height:1.05rem}#frame{position:relative;\
     container-type:inline-size;border-radius:.3rem;user-select:none}\
     .study #frame{outline:3px dashed var(--accent);outline-offset:2px}\
     .draughts #frame{background:#6f4f31;padding:.35rem}.shogi #frame{display:grid;\
     grid-template-columns:minmax(0,1fr) 1.3rem;grid-template-rows:1.4rem auto;padding:0 0 .5rem .5rem;\
     background:#d3a962;box-shadow:inset 0 0 0 1px #8f6a2f}#files,#ranks{display:flex;color:#33230c;\
     font-size:.8rem;font-weight:600;line-height:1}.draughts :is(#files,#ranks){display:none}\
     #files{grid-area:1 / 1}#ranks{flex-direction:column;grid-area:2 / 2}\
     :is(#files,#ranks) span{display:grid;flex:1;place-items:center}#board{position:relative;\
     grid-area:2 / 1}.draughts #board{background:#edd9b4}.shogi #board{background:#e6c380;\
     border:1px solid #5d431b}#board div{display:flex}.draughts #board div{gap:10%}\
     .draughts #board div:nth-child(odd){justify-content:end}#board button{position:relative;\
     min-height:0;padding:0;border:0;border-radius:0;color:#2a1a0b;cursor:default}\
     .draughts #board button{width:10%;aspect-ratio:1;background:#ab7e55}\
     .draughts #board button::before{content:attr(data-square);position:absolute;top:2%;left:5%;\
     z-index:3;font:500 clamp(.5rem,1.75cqi,.75rem)/1 system-ui,sans-serif}.shogi #board button{flex:1;\
     aspect-ratio:11 / 12;background:none;border:solid #5d431b;border-width:0 1px 1px 0}\
     .shogi #board button:last-child{border-right:0}\
     .shogi #board div:nth-child(9) button{border-bottom:0}\
     .shogi #board div:is(:nth-child(3),:nth-child(6)) button:is(:nth-child(3),:nth-child(6))::before{co\
     ntent:\"\";position:absolute;right:0;bottom:0;width:11%;aspect-ratio:1;border-radius:50%;\
     background:#5d431b;translate:50% 50%}#play #board button.last{background:#c3a63c}\
     .shogi #board button.last{background:#d2ab45}#play button.movable{cursor:pointer;touch-action:none}\
     #board .movable:not(.touched),.hand .movable:not(.touched){--ring:#1d5f4b70;\
     box-shadow:inset 0 0 0 2px var(--ring)}#board.must .movable:not(.touched){--ring:#f6e27a;\
     box-shadow:inset 0 0 0 max(3px,.7cqi) var(--ring)}#play button.touched{background:#6f9a4c}\
     #play button.tried{box-shadow:inset 0 0 0 max(3px,.6cqi) #f4f0dc}\
     #play #board .check{background:radial-gradient(closest-side,#ff2a1a 20%,#e33a 60%,#0000)}\
     #board .target{cursor:pointer}#board .target::after{content:\"\";position:absolute;inset:0;z-index:4;\
     background:radial-gradient(circle,#165b2fcc 19%,#0000 21%)}\
     #board .target:has(svg)::after{background:none;box-shadow:inset 0 0 0 max(3px,.6cqi) #165b2f}\
     #play #board .target:hover{background:#8fb26a}\
     #board button:focus-visible,.hand button:focus-visible{z-index:6;outline:3px solid #0d3f9e;\
     outline-offset:-3px;box-shadow:inset 0 0 0 5px #fff}.piece{display:block;position:relative;\
     z-index:2;width:100%;aspect-ratio:1;overflow:visible;pointer-events:none}\
     #play .touched .piece{z-index:7}.disc .rim{fill:#b9a684;stroke:#3d2f1e;stroke-width:2}\
     .disc .face{fill:#fdf7ea;stroke:#57462f;stroke-width:1.5}.disc .ring{fill:none;stroke:#cdbd9d;\
     stroke-width:2.5}.disc.side1 .rim{fill:#0d0b0a;stroke:#000}.disc.side1 .face{fill:#35302b;\
     stroke:#000}.disc.side1 .ring{stroke:#5d554c}.crown{fill:#c98d12;stroke:#5c3f05;stroke-width:2;\
     stroke-linejoin:round}.side1 .crown{fill:#f0bf4c;stroke:#000}.piece:not(.disc) .rim{fill:#9a7335}\
     .piece:not(.disc) .face{fill:#f7e3b2;stroke:#8a6730;stroke-width:2;stroke-linejoin:round}\
     .sign{fill:none;stroke:#1c140a;stroke-width:8.5;stroke-linecap:round;stroke-linejoin:round}\
     .promoted .sign{stroke:#b3150f}#routes{position:absolute;inset:0;z-index:5;width:100%;height:100%;\
     pointer-events:none;fill:none;stroke:#fffa;stroke-width:4;stroke-linejoin:round}\
     .chosen{stroke:#1b5e8f;stroke-width:7}#options .piece{width:4.2rem;margin:auto}\
     #options .main .piece + span,#options .main:has(svg){background:var(--raised);color:var(--ink)}\
     #side{display:grid;gap:.6rem}#side p{margin:0}#say{display:grid;align-content:start;gap:.35rem;\
     min-height:9.8rem;padding:.8rem 1rem;background:var(--raised);border:1px solid var(--line);\
     border-radius:var(--round)}#state b{display:block;font-size:1.15rem}#hint{color:var(--accent);\
     font-weight:600}.told #hint{text-decoration:underline}#confirm{display:flex;gap:.5rem}\
     #confirm .main,#urgent button{flex:1}#next a{width:100%;text-align:center}\
     #next:empty,#confirm:not([hidden]) ~ #next{display:none}#urgent{display:flex;flex-wrap:wrap;\
     gap:.5rem}#urgent:empty,#confirm:not([hidden]) + #urgent{display:none}#steps{display:grid;\
     grid-template-columns:repeat(5,1fr);gap:.35rem}#steps button{padding:.2rem 0}\
     #steps [aria-disabled=true]{color:var(--faint);border-color:var(--line)}\
     #steps [value=start] .icon,#steps [value=back] .icon,#steps [value=on] .icon,#steps [value=present] \
     .icon{fill:currentColor}#moves{position:relative;display:grid;align-content:start;margin:0;\
     height:max(12rem,var(--board) - 16rem);overflow:auto;padding:.4rem;background:var(--raised);\
     border:1px solid var(--line);border-radius:var(--round);list-style:none;\
     font-variant-numeric:tabular-nums;counter-reset:pair}\
     #moves.pairs,#moves.plies{grid-template-columns:repeat(auto-fit,minmax(max(8rem,40%),1fr))}\
     #moves li{display:flex;align-items:baseline}#moves.pairs li:nth-child(odd){counter-increment:pair}\
     #moves.plies li{counter-increment:pair}\
     #moves.pairs li:nth-child(odd)::before,#moves.plies li::before{content:counter(pair) \".\";flex:none;\
     width:2.5rem;padding-inline-end:.5rem;color:var(--faint);text-align:end}#moves button{flex:1;\
     min-height:1.9rem;padding:.1rem .5rem;border:0;background:none;text-align:start;white-space:nowrap}\
     #moves button:hover{background:var(--sunk)}#moves [aria-current]{background:var(--accent);\
     color:var(--on-accent);font-weight:650}#actions:empty{display:none}#actions,#tools{display:flex;\
     flex-wrap:wrap;gap:.5rem}@media (max-width:56em){.game h1{max-width:40rem;margin-inline:auto}\
     #game,#game:has(.shogi){grid-template-columns:minmax(0,min(100%,40rem))}#say{min-height:7rem}\
     #moves{height:auto;min-height:2.8rem;max-height:11rem}}\
     @media (min-width:37.51em) and (max-width:60em) and (max-height:31em){.game h1{max-width:none;\
     text-align:start}#game,#game:has(.shogi){--board:max(100dvh - .8rem,15rem);\
     grid-template-columns:min(var(--board),60%) minmax(0,1fr);grid-template-rows:auto auto 1fr;\
     gap:.3rem .9rem}#game:has(.shogi){--board:max((100dvh - 1rem) * .93,15rem)}#play{display:contents}\
     #frame{grid-area:1 / 1 / span 3}#game .player{grid-column:2;min-height:2.4rem}#say{min-height:5rem;\
     padding:.5rem .8rem}#steps{grid-template-columns:repeat(auto-fit,minmax(2.2rem,1fr))}\
     .clock{white-space:normal}}@media (max-width:37.5em){main{padding-inline:.6rem}\
     header{padding-inline:.6rem;gap:.5rem}#play{margin-inline:-.6rem}.player{padding-inline:.6rem}\
     .shogi .hand{order:3;flex:1 0 100%}.shogi .clock{order:2}.shogi #far .hand{order:3}\
     #frame{border-radius:0}.draughts #frame{padding:0}\
     .shogi #frame{grid-template-columns:minmax(0,1fr) 1rem;padding:0 0 .2rem .2rem}\
     #confirm,#urgent{position:fixed;inset:auto 0 0;z-index:15;\
     padding:.6rem .6rem max(.6rem,env(safe-area-inset-bottom));background:var(--raised);\
     border-top:1px solid var(--line)}#confirm::before{content:attr(data-move);align-self:center;\
     font-weight:650}#confirm button,#urgent button{min-height:3rem}\
     body:has(#confirm:not([hidden]),#urgent button) #notices{bottom:4.3rem}.card .mini{width:6.4rem}\
     .answers{flex:1 0 100%}.answers button{flex:1}}\
     @media (prefers-reduced-motion:no-preference){.card a,button{transition:background-color .12s,borde\
     r-color .12s,box-shadow .12s}}</style>\n<header>\n<a id=brand href=\"#\">\
     <svg viewBox=\"0 0 44 28\" class=mark aria-hidden=true><circle cx=14 cy=14 r=13 />\
     <circle cx=14 cy=14 r=8.5 /><path d=\"M32 1 40 5 43 27H21L24 5Z\"/></svg><span data-text=home> \
     </span><b id=badge></b></a>\n<b id=member></b>\
     \n<button type=button id=open-settings aria-haspopup=dialog><span data-text=settings> </span>\
     </button>\n</header>\n<main>\n<h1 id=title tabindex=-1></h1>\n<form id=sign-in class=panel>\
     \n<div id=welcome></div>\n<label><span data-text=yourName> </span>\
     <input id=name name=username autocomplete=username autocapitalize=none spellcheck=false></label>\
     \n<label><span data-text=key> </span>\
     <input id=key name=password type=password autocomplete=current-password required></label>\
     \n<label class=choice><input id=remember type=checkbox><span data-text=remember> </span></label>\
     \n<button class=main data-text=signIn> </button>\n<p class=faint data-text=keyHint> </p>\n</form>\
     \n<section id=missing class=panel>\n<p data-text=missing> </p>\
     \n<a class=button href=\"#\" data-text=home> </a>\n</section>\n<section id=waiting class=panel>\
     \n<p data-text=loading> </p>\n</section>\n<section id=home>\n<p id=news role=status></p>\
     \n<div id=challenges></div>\n<div id=games></div>\n<div id=below>\n<form id=challenge class=panel>\
     \n<h2 data-text=newChallenge> </h2>\n<label><span data-text=opponent> </span><select id=other>\
     </select></label>\n<label><span data-text=event> </span><select id=cup></select></label>\n<label>\
     <span data-text=begins> </span><select id=begins>\n<option data-text=me> </option>\
     \n<option data-text=they> </option>\n</select></label>\n<button class=main data-text=challenge> \
     </button>\n</form>\n<div>\n<h2 data-text=events> </h2>\n<ul id=events class=rows></ul>\
     \n<details id=ended>\n<summary data-text=endedGames> </summary>\n<div id=ended-games></div>\n</details>\
     \n</div>\n</div>\n</section>\n<section id=event>\n<p id=about class=faint></p>\
     \n<div id=standings class=wide tabindex=0 role=region aria-labelledby=title></div>\
     \n<label id=search-games><span data-text=search> </span>\
     <input id=search type=search autocomplete=off></label>\n<div id=event-games></div>\n</section>\
     \n<section id=game>\n<div id=play>\n<div class=player id=far><span id=far-player></span>\
     <span id=far-clock class=clock role=timer></span><span id=far-hand class=hand></span></div>\
     \n<div id=frame>\n<div id=files aria-hidden=true></div>\
     \n<div id=board role=grid aria-labelledby=title></div>\n<div id=ranks aria-hidden=true></div>\n</div>\
     \n<div class=player id=near><span id=near-player></span><span id=near-clock class=clock role=timer>\
     </span><span id=near-hand class=hand></span></div>\n</div>\n<div id=side>\n<div id=say>\
     \n<p id=state role=status></p>\n<p id=hint></p>\n<p id=confirm hidden></p>\n<p id=urgent></p>\
     \n<p id=next></p>\n</div>\n<p id=steps></p>\n<p id=actions></p>\n<ol id=moves></ol>\n<p id=tools></p>\
     \n</div>\n</section>\n</main>\n<div id=notices>\n<div id=away role=status></div>\
     \n<div id=unsent role=alert></div>\n<div id=wrong role=alert></div>\n</div>\
     \n<dialog id=dialog aria-labelledby=question>\n<p id=question></p>\n<p id=options></p>\n</dialog>\
     \n<dialog id=settings aria-labelledby=settings-title>\n<form method=dialog>\
     \n<h2 id=settings-title data-text=settings> </h2>\n<label><span data-text=languageName> </span>\
     <select id=language></select></label>\n<label class=choice><input type=checkbox id=confirm-choice>\
     <span data-text=confirmChoice> </span></label>\n<label class=choice>\
     <input type=checkbox id=animate-choice><span data-text=animateChoice> </span></label>\
     \n<label class=choice><input type=checkbox id=letters-choice><span data-text=lettersChoice> </span>\
     </label>\n<label class=choice><input type=checkbox id=alerts-choice><span data-text=alertsChoice> \
     </span></label>\n<p id=alerts-refused role=status hidden data-text=alertsRefused> </p>\
     \n<label class=choice><input type=checkbox id=sound-choice><span data-text=soundChoice> </span>\
     </label>\n<p>\n<button type=button id=sign-out data-text=signOut> </button>\
     \n<button class=main data-text=done> </button>\n</p>\n</form>\n</dialog>\n<script type=\"module\">\
     const byId=(id)=>document.getElementById(id);\
     function make(tag,properties,...children){const made=Object.assign(document.createElement(tag),prop\
     erties);made.append(...children);return made}\
     function draw(tag,attributes,...children){const made=document.createElementNS('http://www.w3.org/20\
     00/svg',tag);for(const[name,value]of Object.entries(attributes))made.setAttribute(name,value);\
     made.append(...children);return made}const button=(words,onclick,value='',className='')=>\
     {return make('button',{type:'button',onclick,value,className},words)};const nameOf=(it)=>\
     it.getAttribute('href')??(it.value||it.textContent);\
     function fill(id,...children){const host=byId(id);const fresh=make('div',{},...children);\
     if(fresh.isEqualNode(make('div',{},...host.cloneNode(true).childNodes)))return;\
     const focused=host!==document.activeElement&&host.contains(document.activeElement)&&nameOf(document\
     .activeElement);host.replaceChildren(...fresh.childNodes);if(focused===false)return;\
     const same=[...host.querySelectorAll('a, button')].find((it)=>nameOf(it)===focused);\
     (same??byId('title')).focus({preventScroll:!same})}function attempt(use){try{return use()}\
     catch{return null}}const recall=(name)=>attempt(()=>sessionStorage[name]??localStorage[name]);\
     const keep=(name,value,store='localStorage')=>attempt(()=>{window[store][name]=value});\
     const forget=(name)=>attempt(()=>delete sessionStorage[name]&&delete localStorage[name]);\
     const CHOICES={confirm:true,animate:true,letters:false,alerts:false,sound:false};\
     const choices=Object.keys(CHOICES);const chosen=(name)=>\
     (recall(name)??String(CHOICES[name]))==='true';const TONES=[[660,0],[880,0.14]];const VOLUME=0.12;\
     const LENGTH=0.35;let announced=null;const isForbidden=()=>\
     window.Notification?.permission!=='granted';const canNotify=()=>chosen('alerts')&&!isForbidden();\
     const isWatching=()=>canNotify()||chosen('sound');function ring(){const audio=new AudioContext();\
     for(const[pitch,delay]of TONES){const start=audio.currentTime+delay;\
     const tone=audio.createOscillator();const volume=audio.createGain();tone.frequency.value=pitch;\
     volume.gain.setValueAtTime(VOLUME,start);\
     volume.gain.exponentialRampToValueAtTime(0.001,start+LENGTH);\
     tone.connect(volume).connect(audio.destination);tone.start(start);tone.stop(start+LENGTH)}\
     setTimeout(()=>audio.close(),2000)}function notify({tag,words,place}\
     ){try{const notice=new Notification(words,{tag,icon:byId('icon').href});notice.onclick=()=>\
     {window.focus();location.hash=place;notice.close()}}catch{}}\
     function announce(member,count,items){const isFirst=announced?.member!==member;const isIn=(list)=>\
     ({tag})=>list.some((it)=>it.tag===tag);const come=isFirst?[]:items.filter((it)=>\
     !it.end&&!isIn(announced.items)(it));const gone=isFirst?[]:announced.items.filter((it)=>\
     it.end&&!isIn(items)(it));announced={member,items};navigator.setAppBadge?.(count).catch(()=>{});\
     const fresh=[...come,...gone];if(!fresh[0])return;if(chosen('sound'))ring();\
     if(canNotify()&&!document.hasFocus())fresh.forEach(notify)}const mayNotify=async()=>\
     await window.Notification?.requestPermission()==='granted';\
     function writeManifest(){const address=location.origin+location.pathname;\
     const manifest={name:'Gathlwyro',id:address,start_url:address,scope:address,display:'standalone',ba\
     ckground_color:'#f5f2ea',theme_color:'#1d5f4b',icons:[{src:byId('icon').href,sizes:'any',type:'imag\
     e/svg+xml'}]};\
     const href=`data:application/manifest+json,${encodeURIComponent(JSON.stringify(manifest))}`;\
     document.head.append(make('link',{rel:'manifest',href}))}\
     const TEXTS={code:['en','de','nl','ja','fr'],language:['English','Deutsch','Nederlands','\\u65e5\\u67\
     2c\\u8a9e','Fran\\u00e7ais'],languageName:['Language','Sprache','Taal','\\u8a00\\u8a9e','Langue'],yourN\
     ame:['Your name','Ihr Name','Uw naam','\\u540d\\u524d','Votre nom'],key:['Member key','Mitgliedsschl\\\
     u00fcssel','Lidsleutel','\\u4f1a\\u54e1\\u30ad\\u30fc','Cl\\u00e9 de membre'],keyHint:['The club\\u2019s \
     officer gave you the key. Your password manager needs the name to tell members apart.','Den Schl\\u0\
     0fcssel erhalten Sie vom Turnierleiter. Am Namen unterscheidet Ihr Passwortmanager mehrere Mitglied\
     er.','De sleutel krijgt u van de wedstrijdleider. Met de naam houdt uw wachtwoordmanager leden uit \
     elkaar.','\\u30ad\\u30fc\\u306f\\u30af\\u30e9\\u30d6\\u306e\\u5e79\\u4e8b\\u304c\\u767a\\u884c\\u3057\\u307e\\u305\
     9\\u3002\\u540d\\u524d\\u306f\\u3001\\u30d1\\u30b9\\u30ef\\u30fc\\u30c9\\u30de\\u30cd\\u30fc\\u30b8\\u30e3\\u30fc\\u\
     304c\\u4f1a\\u54e1\\u3092\\u533a\\u5225\\u3059\\u308b\\u305f\\u3081\\u306b\\u4f7f\\u3044\\u307e\\u3059\\u3002','La \
     cl\\u00e9 vous est remise par le responsable du club. Le nom permet \\u00e0 votre gestionnaire de mot\
     s de passe de distinguer les membres.'],otherName:['This key belongs to {name}\
     . You are signed in as {name}.','Dieser Schl\\u00fcssel geh\\u00f6rt {name}. Sie sind als {name} \
     angemeldet.','Deze sleutel is van {name}. U bent aangemeld als {name}\
     .','\\u3053\\u306e\\u30ad\\u30fc\\u306f{name}\\u3055\\u3093\\u306e\\u3082\\u306e\\u3067\\u3059\\u3002{name}\
     \\u3055\\u3093\\u3068\\u3057\\u3066\\u30ed\\u30b0\\u30a4\\u30f3\\u3057\\u307e\\u3057\\u305f\\u3002','Cette cl\\u00\
     e9 appartient \\u00e0 {name}. Vous jouez sous le nom {name}\
     .'],remember:['Stay signed in on this device','Auf diesem Ger\\"
}

/// Part 2 of the page, in ASCII.
#[tactic(auto, unfolding(crate::specs::Joined::page_2))]
pub fn page_2() -> &'static str
    ensures { result.now ≡ page_2 }
{
    "u00e4t angemeldet bleiben','Aangemeld blijven op dit apparaat','\\u3053\\u306e\\u7aef\\u672b\\u3067\\u30\
     ed\\u30b0\\u30a4\\u30f3\\u3057\\u305f\\u307e\\u307e\\u306b\\u3059\\u308b','Garder la session ouverte sur cet \
     appareil'],signIn:['Sign in','Anmelden','Aanmelden','\\u30ed\\u30b0\\u30a4\\u30f3','Se connecter'],sign\
     Out:['Sign out','Abmelden','Afmelden','\\u30ed\\u30b0\\u30a2\\u30a6\\u30c8','Se d\\u00e9connecter'],home:\
     ['My games','Meine Partien','Mijn partijen','\\u5bfe\\u5c40\\u4e00\\u89a7','Mes parties'],settings:['Se\
     ttings','Einstellungen','Instellingen','\\u8a2d\\u5b9a','R\\u00e9glages'],done:['Done','Fertig','Klaar\
     ','\\u9589\\u3058\\u308b','Termin\\u00e9'],analyse:['Analyse','Analysieren','Analyseren','\\u691c\\u8a0e\\\
     u3059\\u308b','Analyser'],analysis:['Analysis:','Analyse:','Analyse:','\\u691c\\u8a0e\\uff1a','Analyse\\\
     u00a0:'],analysisHint:['Try moves for both sides. None is sent, and your opponent sees nothing.','P\
     robieren Sie Z\\u00fcge f\\u00fcr beide Seiten. Keiner wird gesendet, und Ihr Gegner sieht nichts dav\
     on.','Probeer zetten voor beide kanten. Er wordt niets verzonden en uw tegenstander ziet er niets v\
     an.','\\u53cc\\u65b9\\u306e\\u624b\\u3092\\u8a66\\u305b\\u307e\\u3059\\u3002\\u9001\\u4fe1\\u3055\\u308c\\u305a\\u3\
     001\\u76f8\\u624b\\u306b\\u3082\\u898b\\u3048\\u307e\\u305b\\u3093\\u3002','Essayez des coups des deux c\\u00f\
     4t\\u00e9s. Rien n\\u2019est envoy\\u00e9, et votre adversaire n\\u2019en voit rien.'],undo:['Undo','R\\\
     u00fcckg\\u00e4ngig','Ongedaan maken','\\u4e00\\u624b\\u623b\\u3059','Annuler'],backToGame:['Back to the \
     game','Zur\\u00fcck zur Partie','Terug naar de partij','\\u5bfe\\u5c40\\u306b\\u623b\\u308b','Retour \\u00\
     e0 la partie'],confirmChoice:['Confirm each move before it is sent','Jeden Zug vor dem Senden best\\\
     u00e4tigen','Elke zet bevestigen voordat deze wordt verzonden','\\u6307\\u3057\\u624b\\u3092\\u9001\\u4fe\
     1\\u3059\\u308b\\u524d\\u306b\\u78ba\\u8a8d\\u3059\\u308b','Confirmer chaque coup avant l\\u2019envoi'],anim\
     ateChoice:['Animate moves','Z\\u00fcge animieren','Zetten animeren','\\u99d2\\u306e\\u52d5\\u304d\\u3092\\\
     u30a2\\u30cb\\u30e1\\u30fc\\u30b7\\u30e7\\u30f3\\u3067\\u8868\\u793a\\u3059\\u308b','Animer les coups'],alerts\
     Choice:['Notify me when something is waiting for me or a game ends, while this page is open in a ta\
     b','Mich benachrichtigen, wenn etwas auf mich wartet oder eine Partie endet, solange diese Seite in \
     einem Tab ge\\u00f6ffnet ist','Een melding geven als er iets op mij wacht of een partij is afgelopen\
     , zolang deze pagina in een tabblad openstaat','\\u624b\\u756a\\u3084\\u6311\\u6226\\u306a\\u3069\\u304c\\u6\
     765\\u305f\\u3068\\u304d\\u3001\\u5bfe\\u5c40\\u304c\\u7d42\\u308f\\u3063\\u305f\\u3068\\u304d\\u306b\\u901a\\u77e5\
     \\u3059\\u308b\\uff08\\u3053\\u306e\\u30da\\u30fc\\u30b8\\u3092\\u30bf\\u30d6\\u3067\\u958b\\u3044\\u3066\\u3044\\u3\
     08b\\u9593\\uff09','M\\u2019avertir quand quelque chose m\\u2019attend ou qu\\u2019une partie se termine\
     , tant que cette page est ouverte dans un onglet'],soundChoice:['Play a sound in the same cases','I\
     n denselben F\\u00e4llen einen Ton abspielen','In dezelfde gevallen een geluid afspelen','\\u540c\\u30\
     58\\u3068\\u304d\\u306b\\u97f3\\u3092\\u9cf4\\u3089\\u3059','\\u00c9mettre un son dans les m\\u00eames cas'],\
     alertsRefused:['The browser does not allow notifications from this page.','Der Browser erlaubt dies\
     er Seite keine Benachrichtigungen.','De browser staat meldingen van deze pagina niet toe.','\\u30d6\\\
     u30e9\\u30a6\\u30b6\\u30fc\\u304c\\u3053\\u306e\\u30da\\u30fc\\u30b8\\u306e\\u901a\\u77e5\\u3092\\u8a31\\u53ef\\u30\
     57\\u3066\\u3044\\u307e\\u305b\\u3093\\u3002','Le navigateur n\\u2019autorise pas les notifications de cet\
     te page.'],lettersChoice:['Western letters on shogi pieces','Lateinische Buchstaben auf Shogi-Stein\
     en','Latijnse letters op shogistukken','\\u5c06\\u68cb\\u306e\\u99d2\\u3092\\u30a2\\u30eb\\u30d5\\u30a1\\u30d\
     9\\u30c3\\u30c8\\u3067\\u8868\\u793a\\u3059\\u308b','Lettres latines sur les pi\\u00e8ces de shogi'],loadin\
     g:['Loading\\u2026','Wird geladen\\u00a0\\u2026','Laden\\u2026','\\u8aad\\u307f\\u8fbc\\u307f\\u4e2d\\u2026',\
     'Chargement\\u2026'],missing:['The address may be wrong, or belong to another club.','Vielleicht ist \
     die Adresse falsch oder geh\\u00f6rt zu einem anderen Club.','Misschien is het adres onjuist of van \
     een andere club.','\\u30a2\\u30c9\\u30ec\\u30b9\\u304c\\u9593\\u9055\\u3063\\u3066\\u3044\\u308b\\u304b\\u3001\\u\
     5225\\u306e\\u30af\\u30e9\\u30d6\\u306e\\u3082\\u306e\\u304b\\u3082\\u3057\\u308c\\u307e\\u305b\\u3093\\u3002','L\\\
     u2019adresse est peut-\\u00eatre erron\\u00e9e ou celle d\\u2019un autre club.'],news:['Games awaiting \
     your move: {moves}. Challenges: {challenges}.','Partien, in denen Sie am Zug sind: {moves}\
     . Herausforderungen: {challenges}.','Partijen waarin u aan zet bent: {moves}\
     . Uitdagingen: {challenges}.','\\u624b\\u756a\\u306e\\u5bfe\\u5c40\\uff1a{moves}\
     \\u5c40\\u3002\\u6311\\u6226\\uff1a{challenges}\
     \\u4ef6\\u3002','Parties o\\u00f9 c\\u2019est \\u00e0 vous de jouer\\u00a0: {moves}\
     . D\\u00e9fis\\u00a0: {challenges}\
     .'],toClaim:['Opponent out of time','Zeit\\u00fcberschreitung des Gegners','Tijd tegenstander oversc\
     hreden','\\u76f8\\u624b\\u306e\\u6642\\u9593\\u5207\\u308c','Temps adverse \\u00e9coul\\u00e9'],toAnswer:['D\
     raw offers','Remisangebote','Remise aangeboden','\\u5f15\\u304d\\u5206\\u3051\\u306e\\u63d0\\u6848','Propo\
     sitions de nulle'],toMove:['Your move','Sie sind am Zug','U bent aan zet','\\u3042\\u306a\\u305f\\u306e\
     \\u624b\\u756a','\\u00c0 vous de jouer'],toWait:['Opponent\\u2019s move','Gegner am Zug','Tegenstander \
     aan zet','\\u76f8\\u624b\\u306e\\u624b\\u756a','\\u00c0 l\\u2019adversaire de jouer'],noticeTurn:['Your tu\
     rn against {name} ({event})','Sie sind am Zug gegen {name} ({event})','U bent aan zet tegen {name} \
     ({event})','{name}\\u3055\\u3093\\u3068\\u306e\\u5bfe\\u5c40\\uff08{event}\
     \\uff09\\uff1a\\u3042\\u306a\\u305f\\u306e\\u624b\\u756a\\u3067\\u3059','\\u00c0 vous de jouer contre {name} \
     ({event})'],noticeOver:['{name} is out of time ({event})','{name} \
     hat die Zeit \\u00fcberschritten ({event})','{name} heeft de tijd overschreden ({event})','{name}\
     \\u3055\\u3093\\u306f\\u6642\\u9593\\u5207\\u308c\\u3067\\u3059\\uff08{event}\\uff09','{name} \
     a d\\u00e9pass\\u00e9 son temps ({event})'],noticeOffer:['{name} offers a draw ({event})','{name} \
     bietet Remis an ({event})','{name} biedt remise aan ({event})','{name}\
     \\u3055\\u3093\\u304c\\u5f15\\u304d\\u5206\\u3051\\u3092\\u63d0\\u6848\\u3057\\u3066\\u3044\\u307e\\u3059\\uff08{ev\
     ent}\\uff09','{name} propose la nulle ({event})'],noticeDeclined:['{name} \
     declined your challenge ({event})','{name} hat Ihre Herausforderung abgelehnt ({event})','{name} \
     heeft uw uitdaging afgewezen ({event})','{name}\
     \\u3055\\u3093\\u304c\\u6311\\u6226\\u3092\\u65ad\\u308a\\u307e\\u3057\\u305f\\uff08{event}\\uff09','{name} \
     a refus\\u00e9 votre d\\u00e9fi ({event})'],noticeEnded:['The game against {name} has ended ({event}\
     )','Die Partie gegen {name} ist beendet ({event})','De partij tegen {name} is afgelopen ({event}\
     )','{name}\
     \\u3055\\u3093\\u3068\\u306e\\u5bfe\\u5c40\\u304c\\u7d42\\u4e86\\u3057\\u307e\\u3057\\u305f\\uff08{event}\
     \\uff09','La partie contre {name} est termin\\u00e9e ({event}\
     )'],noGames:['You have no games in progress. Challenge a member below, or ask the officer to enter \
     you in an event.','Sie haben keine laufenden Partien. Fordern Sie unten ein Mitglied heraus, oder m\
     elden Sie sich beim Turnierleiter f\\u00fcr ein Turnier an.','U hebt geen lopende partijen. Daag hie\
     ronder een lid uit, of meld u bij de wedstrijdleider aan voor een toernooi.','\\u9032\\u884c\\u4e2d\\u3\
     06e\\u5bfe\\u5c40\\u306f\\u3042\\u308a\\u307e\\u305b\\u3093\\u3002\\u4e0b\\u306e\\u6b04\\u304b\\u3089\\u4f1a\\u54e1\
     \\u306b\\u6311\\u6226\\u3059\\u308b\\u304b\\u3001\\u5e79\\u4e8b\\u306b\\u5927\\u4f1a\\u3078\\u306e\\u53c2\\u52a0\\u3\
     092\\u7533\\u3057\\u8fbc\\u3093\\u3067\\u304f\\u3060\\u3055\\u3044\\u3002','Vous n\\u2019avez aucune partie en \
     cours. D\\u00e9fiez un membre ci-dessous, ou inscrivez-vous \\u00e0 un tournoi aupr\\u00e8s du respons\
     able.'],youAre:['you play {side}','Sie haben {side}','u hebt {side}\
     ','\\u3042\\u306a\\u305f\\u306f{side}','vous avez les {side}\
     '],game:['Game','Partie','Partij','\\u5bfe\\u5c40','Partie'],event:['Event','Turnier','Toernooi','\\u5\
     927\\u4f1a','Tournoi'],yourTurn:['Your turn','Sie sind am Zug','U bent aan zet','\\u3042\\u306a\\u305f\\\
     u306e\\u624b\\u756a\\u3067\\u3059','\\u00c0 vous de jouer'],turn:['{name} to move','{name} \
     ist am Zug','{name} is aan zet','{name}\\u3055\\u3093\\u306e\\u624b\\u756a\\u3067\\u3059','\\u00c0 {name} \
     de jouer'],left:['{span} left','noch {span}','nog {span}','\\u6b8b\\u308a{span}','il reste {span}\
     '],until:['Until {moment}, {left}.','Bis {moment}, {left}.','Tot {moment}, {left}\
     .','\\u671f\\u9650\\uff1a{moment}\\uff08{left}\\uff09','Jusqu\\u2019au {moment}, {left}\
     .'],overMine:['Your time is up: your opponent may claim the win.','Ihre Zeit ist abgelaufen: Ihr Ge\
     gner kann den Sieg reklamieren.','Uw tijd is om: uw tegenstander kan de winst claimen.','\\u6642\\u95\
     93\\u5207\\u308c\\u3067\\u3059\\u3002\\u76f8\\u624b\\u306f\\u52dd\\u3061\\u3092\\u7533\\u8acb\\u3067\\u304d\\u307e\\\
     u3059\\u3002','Votre temps est \\u00e9coul\\u00e9\\u00a0: l\\u2019adversaire peut r\\u00e9clamer le gain.\
     '],overTheirs:['Out of time: claim the win','Zeit \\u00fcberschritten: Sieg reklamieren','Tijd overs\
     chreden: claim de winst','\\u6642\\u9593\\u5207\\u308c\\uff1a\\u52dd\\u3061\\u3092\\u7533\\u8acb\\u3067\\u304d\\\
     u307e\\u3059','Temps d\\u00e9pass\\u00e9\\u00a0: r\\u00e9clamez le gain'],overOther:['The time is up.','\
     Die Zeit ist abgelaufen.','De tijd is om.','\\u6642\\u9593\\u5207\\u308c\\u3067\\u3059\\u3002','Le temps e\
     st \\u00e9coul\\u00e9.'],over:['out of time','Zeit \\u00fcberschritten','tijd overschreden','\\u6642\\u9\
     593\\u5207\\u308c','temps d\\u00e9pass\\u00e9'],offers:['{name} offers a draw','{name} \
     bietet Remis an','{name} biedt remise aan','{name}\
     \\u3055\\u3093\\u304c\\u5f15\\u304d\\u5206\\u3051\\u3092\\u63d0\\u6848\\u3057\\u3066\\u3044\\u307e\\u3059','{name} \
     propose la nulle'],yourOffer:['You have offered a draw. The offer is valid until the next move.','S\
     ie haben Remis angeboten. Das Angebot gilt bis zum n\\u00e4chsten Zug.','U hebt remise aangeboden. H\
     et aanbod geldt tot de volgende zet.','\\u5f15\\u304d\\u5206\\u3051\\u3092\\u63d0\\u6848\\u3057\\u307e\\u3057\
     \\u305f\\u3002\\u6b21\\u306e\\u6307\\u3057\\u624b\\u307e\\u3067\\u6709\\u52b9\\u3067\\u3059\\u3002','Vous avez pr\
     opos\\u00e9 la nulle. La proposition vaut jusqu\\u2019au prochain coup.'],moved:['{name} \
     played {move}','{name} zog {move}','{name} speelde {move}','{name} {move}','{name} \
     a jou\\u00e9 {move}\
     '],atStart:['The starting position','Die Anfangsstellung','De beginstand','\\u958b\\u59cb\\u5c40\\u9762\
     ','La position de d\\u00e9part'],earlier:['An earlier position. Moves are made in the latest one.','\
     Eine fr\\u00fchere Stellung. Gezogen wird in der neuesten.','Een eerdere stand. Zetten kan alleen in \
     de laatste.','\\u904e\\u53bb\\u306e\\u5c40\\u9762\\u3067\\u3059\\u3002\\u6307\\u305b\\u308b\\u306e\\u306f\\u6700\\\
     u65b0\\u306e\\u5c40\\u9762\\u3060\\u3051\\u3067\\u3059\\u3002','Une position ant\\u00e9rieure. On joue dans \
     la derni\\u00e8re.'],mustTake:['You must capture the most pieces you can: use a marked piece.','Schl\
     agzwang: Schlagen Sie mit einem markierten Stein so viele Steine wie m\\u00f6glich.','Slaan is verpl\
     icht en meerslag gaat voor: sla met een gemarkeerd stuk.','\\u6700\\u3082\\u591a\\u304f\\u53d6\\u308b\\u62\
     4b\\u3060\\u3051\\u304c\\u6307\\u305b\\u307e\\u3059\\u3002\\u5370\\u306e\\u4ed8\\u3044\\u305f\\u99d2\\u3067\\u53d6\\\
     u3063\\u3066\\u304f\\u3060\\u3055\\u3044\\u3002','Prise obligatoire et majoritaire\\u00a0: jouez une des p\
     i\\u00e8ces marqu\\u00e9es.'],inCheck:['You are in check. Play one of the marked pieces.','Sie stehen \
     im Schach. Spielen Sie einen der markierten Steine.','U staat schaak. Speel een van de gemarkeerde \
     stukken.','\\u738b\\u624b\\u3067\\u3059\\u3002\\u5370\\u306e\\u4ed8\\u3044\\u305f\\u99d2\\u3067\\u5fdc\\u3058\\u30\
     66\\u304f\\u3060\\u3055\\u3044\\u3002','Vous \\u00eates en \\u00e9chec. Jouez une des pi\\u00e8ces marqu\\u0\
     0e9es.'],confirmHint:['{move}: send this move?','{move}: diesen Zug senden?','{move}\
     : deze zet verzenden?','{move}\\uff1a\\u9001\\u4fe1\\u3057\\u307e\\u3059\\u304b\\uff1f','{move}\
     \\u00a0: envoyer ce coup\\u202f?'],confirm:['Confirm move','Zug best\\u00e4tigen','Zet bevestigen','\\u\
     6307\\u3057\\u624b\\u3092\\u78ba\\u5b9a','Confirmer le coup'],takeBack:['Take back','Zur\\u00fccknehmen',\
     'Terugnemen','\\u53d6\\u308a\\u6d88\\u3059','Annuler le coup'],sending:['Sending\\u2026','Wird gesendet\\\
     u00a0\\u2026','Wordt verzonden\\u2026','\\u9001\\u4fe1\\u4e2d\\u2026','Envoi\\u2026'],unsent:['Game {game}\
     : your move {as} may not have arrived. Sending it again is safe.','Partie {game}: Ihr Zug {as} \
     ist vielleicht nicht angekommen. Sie k\\u00f6nnen ihn bedenkenlos erneut senden.','Partij {game}\
     : uw zet {as} is misschien niet aangekomen. Opnieuw verzenden kan geen kwaad.','\\u5bfe\\u5c40{game}\
     \\uff1a{as}\
     \\u304c\\u5c4a\\u3044\\u3066\\u3044\\u306a\\u3044\\u53ef\\u80fd\\u6027\\u304c\\u3042\\u308a\\u307e\\u3059\\u3002\\u5\
     18d\\u9001\\u4fe1\\u3057\\u3066\\u3082\\u4e8c\\u91cd\\u306b\\u306f\\u306a\\u308a\\u307e\\u305b\\u3093\\u3002','Par\
     tie {game}\\u00a0: votre coup {as} \
     n\\u2019est peut-\\u00eatre pas arriv\\u00e9. Le renvoyer est sans risque.'],again:['Send again','Erne\
     ut senden','Opnieuw verzenden','\\u518d\\u9001\\u4fe1','Renvoyer'],dismiss:['Dismiss','Schlie\\u00dfen'\
     ,'Sluiten','\\u9589\\u3058\\u308b','Fermer'],notDone:['This may not have been done: {why}\
     . Please try again; nothing is done twice.','Vielleicht nicht ausgef\\u00fchrt: {why}\
     . Bitte versuchen Sie es erneut; nichts geschieht doppelt.','Misschien niet uitgevoerd: {why}\
     . Probeer het opnieuw; \
     er gebeurt niets dubbel.','\\u5b9f\\u884c\\u3055\\u308c\\u3066\\u3044\\u306a\\u3044\\u53ef\\u80fd\\u6027\\u304c\
     \\u3042\\u308a\\u307e\\u3059\\uff08{why}\
     \\uff09\\u3002\\u3082\\u3046\\u4e00\\u5ea6\\u304a\\u8a66\\u3057\\u304f\\u3060\\u3055\\u3044\\u3002\\u4e8c\\u91cd\\u3\
     06b\\u306f\\u306a\\u308a\\u307e\\u305b\\u3093\\u3002','Peut-\\u00eatre non effectu\\u00e9\\u00a0: {why}\
     . R\\u00e9essayez\\u202f; rien ne sera fait deux fois.'],retrying:['{why}. Trying again\\u2026','{why}\
     . Neuer Versuch l\\u00e4uft\\u00a0\\u2026','{why}. Nieuwe poging\\u2026','{why}\
     \\u3002\\u518d\\u8a66\\u884c\\u4e2d\\u2026','{why}\
     . Nouvelle tentative\\u2026'],comma:[', ',', ',', ','\\u3001',', '],score:['{pair}: {result}','{pair}\
     : {result}','{pair}: {result}','{pair}\\uff1a{result}','{pair}\\u00a0: {result}'],eventGame:['{event} \
     ({game})','{event} ({game})','{event} ({game})','{event}\\uff08{game}\\uff09','{event} ({game}\
     )'],running:['in progress','l\\u00e4uft','loopt','\\u5bfe\\u5c40\\u4e2d','en cours'],runningGames:['Gam\
     es in progress','Laufende Partien','Lopende partijen','\\u9032\\u884c\\u4e2d\\u306e\\u5bfe\\u5c40','Parti\
     es en cours'],endedGames:['Finished games','Beendete Partien','Afgelopen partijen','\\u7d42\\u4e86\\u3\
     057\\u305f\\u5bfe\\u5c40','Parties termin\\u00e9es'],noEnded:['None yet.','Noch keine.','Nog geen.','\\u\
     307e\\u3060\\u3042\\u308a\\u307e\\u305b\\u3093\\u3002','Aucune pour l\\u2019instant.'],older:['Older games \
     are listed under their events ({count}).','\\u00c4ltere Partien stehen bei ihren Turnieren ({count}\
     ).','Oudere partijen staan bij hun toernooien ({count}\
     ).','\\u3053\\u308c\\u3088\\u308a\\u524d\\u306e\\u5bfe\\u5c40\\u306f\\u5404\\u5927\\u4f1a\\u306e\\u4e00\\u89a7\\u30\
     6b\\u3042\\u308a\\u307e\\u3059\\uff08{count}\
     \\u5c40\\uff09\\u3002','Les parties plus anciennes figurent dans la liste de leur tournoi ({count}\
     ).'],noGamesYet:['No games yet. They begin when members accept challenges or the officer makes pair\
     ings.','Noch keine Partien. Sie beginnen, sobald Mitglieder Herausforderungen annehmen oder der Tur\
     nierleiter Paarungen ansetzt.','Nog geen partijen. Ze beginnen zodra leden uitdagingen aannemen of \
     de wedstrijdleider de indeling maakt.','\\u307e\\u3060\\u5bfe\\u5c40\\u306f\\u3042\\u308a\\u307e\\u305b\\u309\
     3\\u3002\\u6311\\u6226\\u304c\\u6210\\u7acb\\u3059\\u308b\\u304b\\u3001\\u5e79\\u4e8b\\u304c\\u7d44\\u307f\\u5408\\u\
     308f\\u305b\\u3092\\u6c7a\\u3081\\u308b\\u3068\\u59cb\\u307e\\u308a\\u307e\\u3059\\u3002','Pas encore de partie\
     . Elles commencent quand un d\\u00e9fi est accept\\u00e9 ou que le responsable fait les appariements.\
     '],scoring:['a win counts 2, a draw 1; a dot is a game in progress','Sieg 2 Punkte, Remis 1; \
     \\u2022 ist eine laufende Partie','winst telt 2, remise 1; \
     \\u2022 is een lopende partij','\\u52dd\\u30612\\u70b9\\u3001\\u5f15\\u304d\\u5206\\u30511\\u70b9\\u3002\\u2022\
     \\u306f\\u5bfe\\u5c40\\u4e2d','gain 2 points, nulle 1\\u202f; \
     \\u2022 marque une partie en cours'],search:['Search by name','Nach Namen suchen','Zoeken op naam','\
     \\u540d\\u524d\\u3067\\u691c\\u7d22','Rechercher par nom'],more:['Show more ({count}\
     )','Mehr anzeigen ({count})','Meer tonen ({count})','\\u3082\\u3063\\u3068\\u898b\\u308b\\uff08{count}\
     \\uff09','Afficher plus ({count}\
     )'],none:['None found.','Nichts gefunden.','Niets gevonden.','\\u898b\\u3064\\u304b\\u308a\\u307e\\u305b\\\
     u3093\\u3002','Aucun r\\u00e9sultat.'],challenges:['Challenges','Herausforderungen','Uitdagingen','\\u\
     6311\\u6226','D\\u00e9fis'],newChallenge:['New challenge','Neue Herausforderung','Nieuwe uitdaging','\
     \\u65b0\\u3057\\u3044\\u6311\\u6226','Nouveau d\\u00e9fi'],challengesYou:['{from} \
     challenges you:','{from} fordert Sie heraus:','{from} daagt u uit:','{from}\
     \\u3055\\u3093\\u304b\\u3089\\u306e\\u6311\\u6226','{from} \
     vous d\\u00e9fie\\u00a0:'],challenged:['You challenged {to}:','Sie haben {to} \
     herausgefordert:','U hebt {to} uitgedaagd:','{to}\
     \\u3055\\u3093\\u3078\\u306e\\u6311\\u6226','Vous avez d\\u00e9fi\\u00e9 {to}\\u00a0:'],starts:['{event} \
     ({game}), {first} begins','{event} ({game}), {first} beginnt','{event} ({game}), {first} \
     begint','{event}\\uff08{game}\\uff09\\u3001\\u5148\\u624b\\u306f{first}\\u3055\\u3093','{event} ({game}\
     ), {first} commence'],moreReceived:['and {count} more to you','und {count} \
     weitere an Sie','en nog {count} \
     aan u','\\u3042\\u306a\\u305f\\u3078\\u306e\\u6311\\u6226\\u306f\\u307b\\u304b\\u306b{count}\
     \\u4ef6','et {count} de plus pour vous'],moreOwn:['and {count} earlier ones of yours','und {count} \
     fr\\u00fchere von Ihnen','en {count} \
     eerdere van u','\\u3042\\u306a\\u305f\\u304b\\u3089\\u306e\\u4ee5\\u524d\\u306e\\u6311\\u6226\\u306f\\u307b\\u304\
     b\\u306b{count}\\u4ef6','et {count} \
     plus anciens de votre part'],accepted:['accepted','angenommen','aangenomen','\\u6210\\u7acb','accept\\\
     u00e9'],toGame:['To the game','Zur Partie','Naar de partij','\\u5bfe\\u5c40\\u3078','Voir la partie'],\
     declined:['Declined challenges','Abgelehnte Herausforderungen','Afgewezen uitdagingen','\\u65ad\\u308\
     9\\u308c\\u305f\\u6311\\u6226','D\\u00e9fis refus\\u00e9s'],take:['Accept','Annehmen','Aannemen','\\u53d7\\\
     u3051\\u308b','Accepter'],refuse:['Decline','Ablehnen','Afwijzen','\\u65ad\\u308b','Refuser'],withdraw\
     :['Withdraw','Zur\\u00fcckziehen','Intrekken','\\u53d6\\u308a\\u4e0b\\u3052\\u308b','Retirer'],challenge:\
     ['Challenge','Herausfordern','Uitdagen','\\u6311\\u6226\\u3059\\u308b','D\\u00e9fier'],begins:['Who begi\
     ns','Wer beginnt','Wie begint','\\u5148\\u624b','Qui commence'],me:['Me','Ich','Ik','\\u81ea\\u5206','M\
     oi'],they:['My opponent','Mein Gegner','Mijn tegenstander','\\u76f8\\u624b','Mon adversaire'],opponen\
     t:['Opponent','Gegner','Tegenstander','\\u76f8\\u624b','Adversaire'],events:['Events','Turniere','Toe\
     rnooien','\\u5927\\u4f1a','Tournois'],terms:['{game}, {budget} + {increment} per move','{game}\
     , {budget} + {increment} pro Zug','{game}, {budget} + {increment} per zet','{game}\
     \\u3001\\u6301\\u3061\\u6642\\u9593{budget}\\uff0b1\\u624b\\u3054\\u3068\\u306b{increment}','{game}, {budget} \
     + {increment} par coup'],wholeGame:['{game}, {budget} for the game','{game}, {budget} \
     f\\u00fcr die Partie','{game}, {budget} voor de partij','{game}\
     \\u3001\\u6301\\u3061\\u6642\\u9593{budget}','{game}, {budget} \
     pour la partie'],place:['Place','Platz','Plaats','\\u9806\\u4f4d','Rang'],name:['Name','Name','Naam',\
     '\\u540d\\u524d','Nom'],points:['Points','Punkte','Punten','\\u70b9','Points'],played:['Played','Gespi\
     elt','Gespeeld','\\u5c40\\u6570','Jou\\u00e9es'],wins:['Won','Siege','Winst','\\u52dd','Gagn\\u00e9es'],\
     draws:['Drawn','Remis','Remise','\\u5206','Nulles'],losses:['Lost','Niederlagen','Verlies','\\u6557',\
     'Perdues'],sonnebornBerger:['Sonneborn-Berger: the points won against each opponent times the point\
     s of that opponent','Sonneborn-Berger: die Punkte gegen jeden Gegner mal dessen Punkte','Sonneborn-\
     Berger: de punten tegen elke tegenstander maal diens punten','SB\\uff08\\u30be\\u30f3\\u30cd\\u30dc\\u30f\
     c\\u30f3\\u30fb\\u30d9\\u30eb\\u30ac\\u30fc\\uff09\\uff1a\\u5404\\u76f8\\u624b\\u304b\\u3089\\u5f97\\u305f\\u70b9\\u\
     00d7\\u305d\\u306e\\u76f8\\u624b\\u306e\\u70b9\\u306e\\u5408\\u8a08','Sonneborn-Berger\\u00a0: les points mar\
     qu\\u00e9s contre chaque adversaire multipli\\u00e9s par les points de celui-ci'],inProgress:['In pro\
     gress','Laufend','Lopend','\\u5bfe\\u5c40\\u4e2d','En cours'],moveCount:['{count} moves','{count} \
     Z\\u00fcge','{count} zetten','{count}\\u624b','{count} coups'],oneMove:['{count} move','{count} \
     Zug','{count} zet','{count}\\u624b','{count} \
     coup'],empty:['empty','leer','leeg','\\u7a7a\\u304d','vide'],piece:['{side} {kind}','{kind} ({side}\
     )','{kind} van {side}','{side}\\u306e{kind}','{kind} ({side}\
     )'],hand:['in hand','in der Hand','in de hand','\\u6301\\u3061\\u99d2','en main'],last:['last move','l\
     etzter Zug','laatste zet','\\u76f4\\u524d\\u306e\\u624b','dernier coup'],tried:['to be confirmed','zu b\
     est\\u00e4tigen','te bevestigen','\\u672a\\u78ba\\u5b9a','\\u00e0 confirmer'],touched:['touched','ausgew\
     \\u00e4hlt','gekozen','\\u9078\\u629e\\u4e2d','s\\u00e9lection'],target:['may go here','kann hierher','k\
     an hierheen','\\u3053\\u3053\\u306b\\u6307\\u305b\\u308b','peut aller ici'],movable:['may move','spielbar\
     ','speelbaar','\\u6307\\u305b\\u308b','jouable'],check:['in check','im Schach','staat schaak','\\u738b\\\
     u624b','en \\u00e9chec'],which:['Which move?','Welcher Zug?','Welke zet?','\\u3069\\u306e\\u624b\\u306b\\\
     u3057\\u307e\\u3059\\u304b\\uff1f','Quel coup\\u202f?'],start:['Starting position','Anfangsstellung','Be\
     ginstand','\\u958b\\u59cb\\u5c40\\u9762','Position de d\\u00e9part'],back:['Previous move','Ein Zug zur\\\
     u00fcck','Vorige zet','\\u4e00\\u624b\\u623b\\u308b','Coup pr\\u00e9c\\u00e9dent'],on:['Next move','Ein Z\
     ug vor','Volgende zet','\\u4e00\\u624b\\u9032\\u3080','Coup suivant'],present:['Latest position','Neues\
     te Stellung','Laatste stand','\\u6700\\u65b0\\u306e\\u5c40\\u9762','Derni\\u00e8re position'],flip:['Turn \
     the board','Brett drehen','Bord draaien','\\u76e4\\u3092\\u53cd\\u8ee2','Retourner le plateau'],offer:[\
     'Offer a draw','Remis anbieten','Remise aanbieden','\\u5f15\\u304d\\u5206\\u3051\\u3092\\u63d0\\u6848','Pr\
     oposer la nulle'],accept:['Accept the draw','Remis annehmen','Remise aannemen','\\u5f15\\u304d\\u5206\\\
     u3051\\u306b\\u5fdc\\u3058\\u308b','Accepter la nulle'],resign:['Resign','Aufgeben','Opgeven','\\u6295\\u\
     4e86','Abandonner'],resignWhen:['You can resign when it is your turn','Aufgeben k\\u00f6nnen Sie, we\
     nn Sie am Zug sind','Opgeven kan als u aan zet bent','\\u6295\\u4e86\\u3067\\u304d\\u308b\\u306e\\u306f\\u8\
     1ea\\u5206\\u306e\\u624b\\u756a\\u306e\\u3068\\u304d\\u3060\\u3051\\u3067\\u3059','On ne peut abandonner qu\\u2\
     019\\u00e0 son tour'],claim:['Claim the win on time','Sieg reklamieren','Winst op tijd claimen','\\u6\
     642\\u9593\\u5207\\u308c\\u52dd\\u3061\\u3092\\u7533\\u8acb','R\\u00e9clamer le gain au temps'],declare:['De\
     clare the entered king','K\\u00f6nigseintritt erkl\\u00e4ren','Koningsintrede claimen','\\u5165\\u7389\\\
     u5ba3\\u8a00','D\\u00e9clarer l\\u2019entr\\u00e9e du roi'],sure:['{what}?','{what}?','{what}?','{what}\
     \\uff1a\\u3088\\u308d\\u3057\\u3044\\u3067\\u3059\\u304b\\uff1f','{what}\
     \\u202f?'],nextGame:['Next game ({count})','N\\u00e4chste Partie ({count})','Volgende partij ({count}\
     )','\\u6b21\\u306e\\u5bfe\\u5c40\\u3078\\uff08{count}\\uff09','Partie suivante ({count}\
     )'],cancel:['Cancel','Abbrechen','Annuleren','\\u30ad\\u30e3\\u30f3\\u30bb\\u30eb','Annuler'],record:['D\
     ownload the record','Notation herunterladen','Notatie downloaden','\\u68cb\\u8b5c\\u3092\\u4fdd\\u5b58',\
     'T\\u00e9l\\u00e9charger la notation'],draughts:['draughts','Dame','dammen','\\u56fd\\u969b\\u30c9\\u30e9\
     \\u30d5\\u30c4','dames'],shogi:['shogi','Shogi','shogi','\\u5c06\\u68cb','shogi'],white:['white','Wei\\u\
     00df','wit','\\u767d','blancs'],black:['black','Schwarz','zwart','\\u9ed2','noirs'],sente:['black','S\
     chwarz','zwart','\\u5148\\u624b','noirs'],gote:['white','Wei\\u00df','wit','\\u5f8c\\u624b','blancs'],si\
     lent:['The server does not answer','Der Server antwortet nicht','De server reageert niet','\\u30b5\\u\
     30fc\\u30d0\\u30fc\\u304c\\u5fdc\\u7b54\\u3057\\u307e\\u305b\\u3093','Le serveur ne r\\u00e9pond pas'],refuse\
     d:['The club refuses: {name} ({number})','Der Club lehnt ab: {name} ({number}\
     )','De club weigert: {name} ({number})','\\u62d2\\u5426\\u3055\\u308c\\u307e\\u3057\\u305f\\uff1a{name}\
     \\uff08{number}\\uff09','Le club refuse\\u00a0: {name} ({number}\
     )'],illegal:['The rules forbid this move','Die Regeln verbieten diesen Zug','De spelregels verbiede\
     n deze zet','\\u305d\\u306e\\u624b\\u306f\\u53cd\\u5247\\u3067\\u3059','Les r\\u00e8gles interdisent ce coup\
     '],50:['No member has this key','Kein Mitglied hat diesen Schl\\u00fcssel','Geen lid heeft deze sleu\
     tel','\\u3053\\u306e\\u30ad\\u30fc\\u306e\\u4f1a\\u54e1\\u306f\\u3044\\u307e\\u305b\\u3093','Aucun membre n\\u20\
     19a cette cl\\u00e9'],52:['No such event','Dieses Turnier gibt es nicht','Dit toernooi bestaat niet'\
     ,'\\u305d\\u306e\\u5927\\u4f1a\\u306f\\u3042\\u308a\\u307e\\u305b\\u3093','Ce tournoi n\\u2019existe pas'],53:\
     ['No such game','Diese Partie gibt es nicht','Deze partij bestaat niet','\\u305d\\u306e\\u5bfe\\u5c40\\u\
     306f\\u3042\\u308a\\u307e\\u305b\\u3093','Cette partie n\\u2019existe pas'],54:['No such challenge','Dies\
     e Herausforderung gibt es nicht','Deze uitdaging bestaat niet','\\u305d\\u306e\\u6311\\u6226\\u306f\\u304\
     2\\u308a\\u307e\\u305b\\u3093','Ce d\\u00e9fi n\\u2019existe pas'],55:['You are not a player of this game\
     ','Sie spielen in dieser Partie nicht mit','U speelt deze partij niet','\\u3042\\u306a\\u305f\\u306e\\u5\
     bfe\\u5c40\\u3067\\u306f\\u3042\\u308a\\u307e\\u305b\\u3093','Vous ne jouez pas cette partie'],56:['The gam\
     e is over','Die Partie ist zu Ende','De partij is afgelopen','\\u7d42\\u5c40\\u3057\\u3066\\u3044\\u307e\\\
     u3059','La partie est finie'],57:['The game has moved on','Die Partie ist schon weiter','De partij \
     is al verder','\\u5c40\\u9762\\u304c\\u9032\\u3093\\u3067\\u3044\\u307e\\u3059','La partie a avanc\\u00e9'],5\
     8:['Something else was done already','Es ist schon etwas anderes geschehen','Er is al iets anders g\
     ebeurd','\\u5225\\u306e\\u64cd\\u4f5c\\u304c\\u5148\\u306b\\u884c\\u308f\\u308c\\u307e\\u3057\\u305f','Autre cho\
     se a d\\u00e9j\\u00e0 \\u00e9t\\u00e9 fait'],59:['Only your opponent can do that now','Das kann jetzt n\
     ur Ihr Gegner','Dat kan nu alleen uw tegenstander','\\u4eca\\u305d\\u308c\\u304c\\u3067\\u304d\\u308b\\u306\
     e\\u306f\\u76f8\\u624b\\u3060\\u3051\\u3067\\u3059','Seul l\\u2019adversaire peut le faire maintenant'],60:\
     ['Your time is up','Ihre Zeit ist abgelaufen','Uw tijd is om','\\u6642\\u9593\\u5207\\u308c\\u3067\\u3059\
     ','Votre temps est \\u00e9coul\\u00e9'],61:['Your opponent has time left','Ihr Gegner hat noch Zeit',\
     'Uw tegenstander heeft nog tijd','\\u76f8\\u624b\\u306e\\u6301\\u3061\\u6642\\u9593\\u304c\\u6b8b\\u3063\\u306\
     6\\u3044\\u307e\\u3059','L\\u2019adversaire a encore du temps'],62:['The offer is no longer valid','Das \
     Angebot gilt nicht mehr','Het aanbod is vervallen','\\u63d0\\u6848\\u306f\\u7121\\u52b9\\u306b\\u306a\\u308\
     a\\u307e\\u3057\\u305f','La proposition n\\u2019est plus valable'],65:['Invalid value','Unzul\\u00e4ssig\
     er Wert','Ongeldige waarde','\\u5024\\u304c\\u4e0d\\u6b63\\u3067\\u3059','Valeur non valide'],66:['The cl\
     ub cannot hold more games','Der Club kann keine weiteren Partien aufnehmen','De club kan geen parti\
     jen meer opnemen','\\u5bfe\\u5c40\\u6570\\u304c\\u4e0a\\u9650\\u306b\\u9054\\u3057\\u3066\\u3044\\u307e\\u3059',\
     'Le club ne peut plus accueillir de parties'],67:['The entered king cannot be declared here','Der K\
     \\u00f6nigseintritt kann hier nicht erkl\\u00e4rt werden','De koningsintrede kan hier niet worden gec\
     laimd','\\u3053\\u3053\\u3067\\u306f\\u5165\\u7389\\u5ba3\\u8a00\\u306f\\u3067\\u304d\\u307e\\u305b\\u3093','L\\u2\
     019entr\\u00e9e du roi ne peut pas \\u00eatre d\\u00e9clar\\u00e9e ici'],68:['Closed to challenges','Ke\
     ine Herausforderungen mehr','Gesloten voor uitdagingen','\\u6311\\u6226\\u306e\\u53d7\\u4ed8\\u7d42\\u4e86\
     ','Ferm\\u00e9 aux d\\u00e9fis'],72:['The club\\u2019s file cannot be used; \
     please tell the officer','Die Datei des Clubs ist nicht nutzbar; \
     bitte informieren Sie den Turnierleiter','Het bestand van de club is niet bruikbaar; \
     waarschuw de wedstrijdle"
}

/// Part 3 of the page, in ASCII.
#[tactic(auto, unfolding(crate::specs::Joined::page_3))]
pub fn page_3() -> &'static str
    ensures { result.now ≡ page_3 }
{
    "ider','\\u30af\\u30e9\\u30d6\\u306e\\u30c7\\u30fc\\u30bf\\u3092\\u5229\\u7528\\u3067\\u304d\\u307e\\u305b\\u3093\\\
     u3002\\u5e79\\u4e8b\\u306b\\u77e5\\u3089\\u305b\\u3066\\u304f\\u3060\\u3055\\u3044','Le fichier du club est in\
     utilisable\\u202f; \
     pr\\u00e9venez le responsable'],73:['The club is unavailable','Der Club ist gerade nicht verf\\u00fcg\
     bar','De club is even niet beschikbaar','\\u30af\\u30e9\\u30d6\\u306f\\u73fe\\u5728\\u5229\\u7528\\u3067\\u30\
     4d\\u307e\\u305b\\u3093','Le club est momentan\\u00e9ment indisponible'],ending:['{who}: {why} \
     ({result})','{who}: {why} ({result})','{who}: {why} ({result})','{who}\\uff1a{why}\\uff08{result}\
     \\uff09','{who}\\u00a0: {why} ({result})'],won:['{name} won','{name} hat gewonnen','{name} \
     heeft gewonnen','{name}\\u3055\\u3093\\u306e\\u52dd\\u3061','{name} \
     a gagn\\u00e9'],youWon:['You won','Sie haben gewonnen','U hebt gewonnen','\\u3042\\u306a\\u305f\\u306e\\u\
     52dd\\u3061','Vous avez gagn\\u00e9'],youLost:['You lost','Sie haben verloren','U hebt verloren','\\u3\
     042\\u306a\\u305f\\u306e\\u8ca0\\u3051','Vous avez perdu'],drawn:['Draw','Remis','Remise','\\u5f15\\u304d\\\
     u5206\\u3051','Nulle'],NoMove:['no move left','kein Zug mehr m\\u00f6glich','geen zet meer mogelijk',\
     '\\u6307\\u305b\\u308b\\u624b\\u304c\\u306a\\u3044','plus de coup possible'],Mate:['checkmate','Matt','mat\
     ','\\u8a70\\u307f','mat'],Repetition:['threefold repetition','dreifache Stellungswiederholung','driem\
     aal dezelfde stand','\\u540c\\u4e00\\u5c40\\u97623\\u56de','triple r\\u00e9p\\u00e9tition'],KingMoves:['25 \
     king moves without a capture','25 Damenz\\u00fcge ohne Schlag','25 damzetten zonder slag','\\u30ad\\u3\
     0f3\\u30b0\\u306e\\u624b\\u306e\\u307f\\u30fb\\u99d2\\u53d6\\u308a\\u306a\\u3057\\u3067\\u53cc\\u65b925\\u624b','2\
     5 coups de dames sans prise'],ThreeToOne:['16 moves with three pieces against a king','16 Z\\u00fcge \
     mit drei Steinen gegen eine Dame','16 zetten met drie om \\u00e9\\u00e9n','3\\u679a\\u5bfe\\u30ad\\u30f3\\\
     u30b01\\u679a\\u3067\\u53cc\\u65b916\\u624b','16 coups \\u00e0 trois pi\\u00e8ces contre une dame'],TwoToO\
     ne:['5 moves with at most two pieces against a king','5 Z\\u00fcge mit h\\u00f6chstens zwei Steinen g\
     egen eine Dame','5 zetten met hooguit twee om \\u00e9\\u00e9n','2\\u679a\\u4ee5\\u4e0b\\u5bfe\\u30ad\\u30f3\
     \\u30b01\\u679a\\u3067\\u53cc\\u65b95\\u624b','5 coups \\u00e0 deux pi\\u00e8ces au plus contre une dame'],\
     PlyLimit:['limit of 600 plies','Grenze von 600 Halbz\\u00fcgen','grens van 600 halve zetten','\\u6700\
     \\u5927\\u624b\\u6570600\\u624b','limite de 600 demi-coups'],PerpetualCheck:['perpetual check','Dauersc\
     hach','eeuwig schaak','\\u9023\\u7d9a\\u738b\\u624b\\u306e\\u5343\\u65e5\\u624b','\\u00e9chec perp\\u00e9tuel\
     '],Fourfold:['fourfold repetition','vierfache Stellungswiederholung','viermaal dezelfde stand','\\u5\
     343\\u65e5\\u624b','quadruple r\\u00e9p\\u00e9tition'],Agreed:['by agreement','Vereinbarung','in onderl\
     ing overleg','\\u5408\\u610f','d\\u2019un commun accord'],Resigned:['by resignation','Aufgabe','opgave\
     ','\\u6295\\u4e86','abandon'],Time:['on time','Zeit\\u00fcberschreitung','tijdsoverschrijding','\\u6642\
     \\u9593\\u5207\\u308c','temps d\\u00e9pass\\u00e9'],Declared:['by declaration of the entered king','K\\u0\
     0f6nigseintritt','koningsintrede','\\u5165\\u7389\\u5ba3\\u8a00','entr\\u00e9e du roi'],Recorded:['as re\
     corded','laut Notation','volgens notatie','\\u68cb\\u8b5c\\u306b\\u3088\\u308b','selon la notation'],man\
     :['man','Stein','schijf','\\u30de\\u30f3','pion'],king:['king','Dame','dam','\\u30ad\\u30f3\\u30b0','dam\
     e'],K:['king','K\\u00f6nig','koning','\\u7389','roi'],R:['rook','Turm','toren','\\u98db\\u8eca','tour']\
     ,B:['bishop','L\\u00e4ufer','loper','\\u89d2','fou'],G:['gold','Goldgeneral','gouden generaal','\\u91d\
     1','g\\u00e9n\\u00e9ral d\\u2019or'],S:['silver','Silbergeneral','zilveren generaal','\\u9280','g\\u00e9\
     n\\u00e9ral d\\u2019argent'],N:['knight','Springer','paard','\\u6842\\u99ac','cavalier'],L:['lance','La\
     nze','lans','\\u9999\\u8eca','lance'],P:['pawn','Bauer','pion','\\u6b69','pion'],'+R':['dragon','Drach\
     e','draak','\\u7adc','dragon'],'+B':['horse','Pferd','gepromoveerde loper','\\u99ac','cheval'],'+S':[\
     'promoted silver','bef\\u00f6rderter Silbergeneral','gepromoveerde zilveren generaal','\\u6210\\u9280'\
     ,'g\\u00e9n\\u00e9ral d\\u2019argent promu'],'+N':['promoted knight','bef\\u00f6rderter Springer','gepr\
     omoveerd paard','\\u6210\\u6842','cavalier promu'],'+L':['promoted lance','bef\\u00f6rderte Lanze','ge\
     promoveerde lans','\\u6210\\u9999','lance promue'],'+P':['tokin','Tokin','tokin','\\u3068\\u91d1','toki\
     n']};const DAY=86400;const UNITS={day:DAY,hour:3600,minute:60,second:1};let language=0;\
     function text(name,values,other){const columns=TEXTS[name]??TEXTS[other]??[String(name)];\
     return(columns[language]??columns[0]).replace(/\\{(\\w+)\\}/g,(_,it)=>values[it])}\
     const isJapanese=()=>text('code')==='ja';const kindName=(kind)=>text(kind);const locale=()=>\
     navigator.languages.find((it)=>it.startsWith(text('code')))??text('code');\
     function moment(seconds){const how={weekday:'short',day:'numeric',month:'short',hour:'numeric',minu\
     te:'2-digit'};return seconds?new Date(seconds*1000).toLocaleString(locale(),how):''}\
     function amount(count,unit){const words=count.toLocaleString(locale(),{style:'unit',unit,unitDispla\
     y:'long'});return isJapanese()?words.replace(' ',''):words}\
     function span(seconds){const fits=([,size])=>seconds>=2*size||seconds===size;\
     const[unit,size]=Object.entries(UNITS).find(fits)??['second',1];\
     return amount(Math.floor(seconds/size),unit)}\
     function clockFace(seconds){const whole=Math.max(Math.floor(seconds),0);const digits=(by,base)=>\
     String(Math.floor(whole/by)%base).padStart(2,'0');const face=`${digits(3600, 24)}:${digits(60, 60)}\
     `;return whole<DAY?`${face}:${digits(1, 60)}`:`${amount(Math.floor(whole / DAY), 'day')} ${face}`}\
     function speak(code){language=Math.max(TEXTS.code.indexOf(code),0);\
     document.documentElement.lang=byId('language').value=text('code');\
     for(const it of document.querySelectorAll('[data-text]'))it.firstChild.data=text(it.dataset.text);\
     byId('language').ariaLabel=text('languageName')}\
     function startLanguage(changed){const choice=byId('language');\
     choice.append(...TEXTS.code.map((value,at)=>make('option',{value,lang:value},TEXTS.language[at])));\
     choice.onchange=()=>{keep('language',choice.value);speak(choice.value);changed()};\
     const wanted=navigator.languages.map((it)=>it.slice(0,2));\
     speak(recall('language')??wanted.find((it)=>TEXTS.code.includes(it)))}const winnerOf=({result})=>\
     ({'2-0':0,'0-2':1})[result];function reason({end,isMate}\
     ){return text(end==='NoMove'&&isMate?'Mate':end)}\
     function ending(game,reader){const players=[game.first,game.second];const won=winnerOf(game);\
     const name=players[won];\
     const who=won===undefined?text('drawn'):!players.includes(reader)?text('won',{name}\
     ):name===reader?text('youWon'):text('youLost');\
     return text('ending',{who,why:reason(game),result:game.result})}const PATIENCE=20000;\
     const SILENT=0;let memberKey='';const showKey=(key)=>{memberKey=key};\
     function refusal(number,name){const fault=number>69&&number<80&&(number<73?72:73);\
     const kind=fault||(number>99||!number?'silent':number<40?'illegal':'refused');\
     return Object.assign(Error(text(number,{number,name},kind)),{number})}const isPassing=({number})=>\
     number===SILENT||number>=70&&number<80||number>99;function silence(){throw refusal(SILENT)}\
     async function request(path,body){if(!/^[a-z0-9]+$/i.test(memberKey))throw refusal(50);\
     const how={method:body?'POST':'GET',body:body&&JSON.stringify(body),cache:'no-store'};\
     const headers={'Member-Key':memberKey};\
     const reply=await fetch(path,{...how,headers,signal:AbortSignal.timeout(PATIENCE)}).catch(silence);\
     if(reply.ok)return reply;const{error=reply.status,name}=(await reply.json().catch(()=>null))??{};\
     throw refusal(error,name)}const ask=async(path,body)=>\
     (await request(path,body)).json().catch(silence);const SQUARES=Array.from({length:50},(_,at)=>\
     String(at+1));const PLACES=[0,10,20,30,40].flatMap((at)=>[...SQUARES.slice(at,at+10),'']);\
     const DIRECTIONS=[-6,-5,5,6];const isKing=(piece)=>piece===piece.toUpperCase();\
     const sideOf=(piece)=>(piece.toLowerCase()==='w'?0:1);\
     function jumps(board,piece,square,step){const found=[];const start=PLACES.indexOf(square);\
     const end=start+step*(isKing(piece)?10:3);let over=null;for(let at=start+step;PLACES[at]&&at!==end;\
     at+=step){const met=board[PLACES[at]];if(met&&(over||sideOf(met)===sideOf(piece)))break;\
     if(over)found.push([over,PLACES[at]]);if(met)over=PLACES[at]}return found}\
     function takenBy(board,named){const standing={...board,[named[0]]:''};let most=[];\
     const extend=(squares,taken)=>{const fits=named[2]?`${squares}`===`${named}\
     `:squares.at(-1)===named[1];if(fits&&taken.length>most.length)most=taken;\
     for(const[over,landing]of DIRECTIONS.flatMap((it)=>\
     jumps(standing,board[named[0]],squares.at(-1),it))){if(!taken.includes(over))extend([...squares,lan\
     ding],[...taken,over])}};extend([named[0]],[]);return most}\
     const draughts={opening:`W:W${SQUARES.slice(30)}:B${SQUARES.slice(0, 20)}\
     `,rows:Array.from({length:10},(_,row)=>\
     SQUARES.slice(row*5,row*5+5)),hand:[],sides:['white','black'],read(position){const board={};\
     for(const list of position.split(':').slice(1)){for(const[,king,square]of list.matchAll(/(K?)(\\d+)/\
     g)){board[square]=king?list[0]:list[0].toLowerCase()}}return{board}},play({board}\
     ,move){const squares=this.squares(move);const[from,to]=[squares[0],squares.at(-1)];\
     const crowned=sideOf(board[from])?to>45:to<6;const next={...board};\
     for(const square of[from,...takenBy(board,squares)])delete next[square];\
     next[to]=crowned?board[from].toUpperCase():board[from];return{board:next}},squares:(move)=>\
     move.split(/[-x]/),side:sideOf,kind:(piece)=>(isKing(piece)?'king':'man')};\
     const ROOF='M50 8Q38 30 10 45M50 8Q62 30 90 45';\
     const TREE='M50 6V57M48 29Q34 46 8 55M52 29Q66 46 92 55';\
     const EARTHS='V46M50 46H95M55 67H91M73 52V89M50 89H95';\
     const STROKES={K:'M18 18H82M22 49H78M10 84H90M50 18V84M64 60L77 73',k:'M18 18H82M22 49H78M10 84H90M\
     50 18V84',R:'M16 14H60Q60 36 84 43L87 33M88 12L71 21M71 24L88 34M37 28Q29 37 12 42M26 38Q28 74 9 92\
     M45 30V94'+'M6 59H62Q61 82 86 91L91 79M90 56L72 65M72 68L90 79',B:'M38 6Q29 22 10 34M34 17H65L53 33\
     M25 33H80V91L68 86M25 33V60Q25 80 10 93M25 51H80M25 70H80M52 33V70',G:`${ROOF}\
     M30 42H70M20 60H80M50 42V90M30 69L37 81M71 69L62 81M10 91H90`,S:'M27 7Q20 26 3 37M27 7Q34 21 49 29M\
     15 38H40M9 55H44M27 38V86M13 63L18 75M41 62L35 74M5 89L47 83'+'M58 12H87V47H58M58 29H87M58 12V90L76 \
     79M92 54L76 64M66 48Q74 78 97 90',N:`M5 31H46M26 7V94M25 34Q20 56 3 70M28 40L44 57M56 25H91M73 8${E\
     ARTHS}\
     `,L:'M72 6Q52 15 22 18M8 33H92M50 15V58M48 35Q34 51 7 60M52 35Q66 51 93 60M28 64H73V95H28ZM28 79H73\
     ',P:'M50 5V41M50 22H79M27 20V41M9 41H91M51 46V74L41 69M31 53Q27 65 13 74M69 52L86 68M82 68Q64 90 18 \
     95','+R':'M50 5V17M19 18H81M35 22L40 34M66 22L59 34M9 36H91M25 46H75V74H25ZM25 60H75'+'M50 38V82Q50 \
     93 62 93H84Q92 93 92 78','+B':'M24 9V60M24 9H80M24 26H75M24 43H75M51 9V60M24 60H87Q87 84 77 95L66 9\
     0'+'M17 70L9 89M34 71L36 86M49 71L53 84M63 69L69 81','+S':`${ROOF}\
     M28 46H72M30 67H70M10 91H90M50 46V91`,'+N':'M22 25H78M50 7V47M11 47H89M20 68H80M50 54V91M8 91H92','\
     +L':`M8 27H92${TREE}\
     M26 67H75V94H26Z`,'+P':'M33 9Q35 34 45 47M82 31Q20 55 20 74Q20 93 52 92Q68 92 82 87'};\
     const CROWN='M32 62 29 37l12 9 9-15 9 15 12-9-3 25z';\
     const LETTERS={K:'M-16-24V24M16-24L-14 2M-5-6L17 24',R:'M-15 24V-24H4Q16-24 16-11T4 2H-15M2 2L17 24\
     ',B:'M-15 0H3Q16 0 16 12T3 24H-15V-24H2Q13-24 13-12T2 0',G:'M16-13Q11-25-1-25-18-25-18 0T0 25Q16 25 \
     17 9V2H2',S:'M14-15Q10-25-1-25-14-25-14-13-14-2 0 0 15 2 15 13 15 25 0 25-13 25-15 14',N:'M-16 24V-\
     24L16 24V-24',L:'M-12-24V24H15',P:'M-14 24V-24H3Q16-24 16-10T3 4H-14'};\
     const SIZES={K:1,R:0.97,B:0.97,G:0.93,S:0.93,N:0.89,L:0.87,P:0.83};\
     const corners='M50 5 78 17 90 94H10L22 17Z';const thick='M10 94H90V99H10Z';\
     function disc(kind){const at=(cy,r,name)=>draw('circle',{cx:50,cy,r,class:name});\
     const single=[at(55,39,'rim'),at(51,39,'face'),at(51,29,'ring')];if(kind!=='king')return single;\
     return[at(58,39,'rim'),at(54,39,'face'),at(49,39,'rim'),at(45,39,'face'),draw('path',{d:CROWN,class\
     :'crown',transform:'translate(0 -3)'})]}\
     function sign(kind,side,letters,turned){if(!letters){const d=STROKES[kind==='K'&&side?'k':kind];\
     return draw('path',{d,class:'sign',transform:'translate(23 31) scale(.54)'})}\
     const plus=kind[1]?'M-34 0H-20M-27-7V7':'';const place=`translate(${kind[1] ? 56 : 50} \
     60)${turned ? 'rotate(180)' : ''} scale(.9)`;\
     return draw('path',{d:plus+LETTERS[kind.at(-1)],class:'sign',transform:turned?place.replace('56','4\
     4'):place})}function wood(kind,side,turned,letters){const size=SIZES[kind.at(-1)];\
     const place=`${turned ? 'rotate(180 50 50)' : ''}translate(${50 - 50 * size} ${52 - 50 * size}\
     ) scale(${size})`;return[draw('g',{transform:place},draw('path',{d:thick,class:'rim'}\
     ),draw('path',{d:corners,class:'face'}),sign(kind,side,letters,turned))]}\
     function picture(kind,side,turned,letters){const parts=kind[2]?disc(kind):wood(kind,side,turned,let\
     ters);const look=`piece side${side}${kind[0] === '+' ? ' promoted' : ''}${kind[2] ? ' disc' : ''}`;\
     return draw('svg',{viewBox:'0 0 100 100',class:look,'aria-hidden':true},...parts)}\
     function miniature(rules,{board},near,last){const isShogi=!!rules.hand[0];const size=isShogi?9:10;\
     const shapes={dark:'',last:'',one:'',other:'',kings:''};\
     const rows=isShogi?rules.rows:rules.rows.map((row,down)=>row.flatMap((it)=>\
     (down%2?[it,'']:['',it])));rows.forEach((row,down)=>row.forEach((square,right)=>\
     {const[x,y]=near?[size-1-right,size-1-down]:[right,down];const piece=board[square];\
     if(square)shapes[last.includes(square)?'last':'dark']+=`M${x} ${y}h1v1h-1z`;if(!piece)return;\
     const side=rules.side(piece);const flip=side===near?1:-1;const shape=isShogi?`M${x + 0.5} \
     ${y + 0.5 - 0.42 * flip}l${0.27 * flip} ${0.14 * flip} ${0.1 * flip} ${0.68 * flip}h${-0.74 * flip}\
     l${0.1 * flip} ${-0.68 * flip}z`:`M${x + 0.12} ${y + 0.5}a.38.38 0 1 0 .76 0a.38.38 0 1 0-.76 0z`;\
     shapes[(isShogi?side===near:!side)?'one':'other']+=shape;\
     if(isShogi?piece[1]:rules.kind(piece)==='king')shapes.kings+=`M${x + 0.35} ${y + 0.5}\
     a.15.15 0 1 0 .3 0a.15.15 0 1 0-.3 0z`}));const parts=Object.entries(shapes).map(([name,d])=>\
     draw('path',{d,class:name}));const lines=isShogi?[draw('path',{d:Array.from({length:8},(_,at)=>\
     `M${at + 1} 0v9M0 ${at + 1}h9`).join(''),class:'lines'})]:[];parts.splice(2,0,...lines);\
     return draw('svg',{viewBox:`0 0 ${size} ${size}`,class:`mini ${isShogi ? 'shogi' : 'draughts'}\
     `,'aria-hidden':true},...parts)}\
     const ICONS={start:'M5 4V20M19 4L9 12 19 20Z',back:'M17 4L7 12 17 20Z',on:'M7 4L17 12 7 20Z',presen\
     t:'M19 4V20M5 4L15 12 5 20Z',flip:'M8 20V5M8 4L4 9M8 4L12 9M16 4V19M16 20L12 15M16 20L20 15',settin\
     gs:'M3 7H10M16 7H21M3 17H6M12 17H21M13 4V10M9 14V20',record:'M12 4V15M12 15L7 10M12 15L17 10M4 20H2\
     0'};const icon=(name)=>draw('svg',{viewBox:'0 0 24 24',class:'icon','aria-hidden':true}\
     ,draw('path',{d:ICONS[name]}));let looker=null;const line=(words,...more)=>(words?[make('p',{}\
     ,words),...more]:[]);const sayAway=(words='')=>\
     fill('away',...line(words&&text('retrying',{why:words})));\
     function complain(words=''){fill('wrong',...line(words,button(text('dismiss'),()=>complain())))}\
     function sayUnsent(words,again,dismissed){fill('unsent',...line(words,button(text('again'),again,''\
     ,'main'),button(text('dismiss'),dismissed)))}const lookAgain=()=>looker();\
     const startNotices=(look)=>{looker=look};async function answerOf(deed){let found;\
     try{found=await deed();complain()}catch(error){if(isPassing(error))sayAway(error.message);\
     complain(isPassing(error)?text('notDone',{why:error.message}):error.message)}return found}\
     async function perform(deed){await answerOf(deed);await lookAgain()}const RANKS=[...'abcdefghi'];\
     const FAR=['abc','ghi'];const isUpper=(piece)=>piece===piece.toUpperCase();const ownerOf=(piece)=>\
     (isUpper(piece)?0:1);const CROSS=[[0,-1],[0,1],[1,0],[-1,0]];\
     const SLANTED=[[1,-1],[-1,-1],[1,1],[-1,1]];const GOLD=[...CROSS,[1,-1],[-1,-1]];\
     const ALL=[...CROSS,...SLANTED];\
     const STEPS={K:ALL,G:GOLD,S:[[0,-1],...SLANTED],N:[[1,-2],[-1,-2]],P:[[0,-1]],'+S':GOLD,'+N':GOLD,'\
     +L':GOLD,'+P':GOLD,'+R':SLANTED,'+B':CROSS};\
     const LINES={R:CROSS,B:SLANTED,L:[[0,-1]],'+R':CROSS,'+B':SLANTED};\
     const NUMERALS='\\u4e00\\u4e8c\\u4e09\\u56db\\u4e94\\u516d\\u4e03\\u516b\\u4e5d';\
     const NAMES={K:'\\u7389',R:'\\u98db',B:'\\u89d2',G:'\\u91d1',S:'\\u9280',N:'\\u6842',L:'\\u9999',P:'\\u6b69\
     ','+R':'\\u7adc','+B':'\\u99ac','+S':'\\u6210\\u9280','+N':'\\u6210\\u6842','+L':'\\u6210\\u9999','+P':'\\u3\
     068'};const[UP,BACK,ASIDE,STRAIGHT,RIGHT,LEFT]='\\u4e0a\\u5f15\\u5bc4\\u76f4\\u53f3\\u5de6';\
     const[SAME,DROP,PROMOTED,NOT]='\\u540c\\u6253\\u6210\\u4e0d';\
     function away(square,files,ranks){const file=Number(square[0])+files;\
     const rank=RANKS[RANKS.indexOf(square[1])+ranks];return file>0&&file<10&&rank?file+rank:null}\
     function attacked(board,square){const piece=board[square];const kind=piece.toUpperCase();\
     const ahead=isUpper(piece)?1:-1;const found=(STEPS[kind]??[]).map(([files,ranks])=>\
     away(square,files,ranks*ahead));\
     for(const[files,ranks]of LINES[kind]??[]){for(let at=away(square,files,ranks*ahead);at;\
     at=away(at,files,ranks*ahead)){found.push(at);if(board[at])break}}return found}\
     const alike=(board,piece,target)=>{return Object.keys(board).filter((it)=>\
     board[it]===piece&&attacked(board,it).includes(target))};\
     const shogi={opening:'lnsgkgsnl/1r5b1/ppppppppp/9/9/9/PPPPPPPPP/1B5R1/LNSGKGSNL b -',rows:RANKS.map\
     ((rank)=>[...'987654321'].map((file)=>\
     file+rank)),hand:[...'RBGSNLP'],sides:['sente','gote'],read(position){const[ranks,,pieces]=position\
     .split(' ');const board={};const hand={};ranks.split('/').forEach((rank,down)=>{let file=9;\
     for(const[item]of rank.matchAll(/\\d|\\+?[a-z]/gi)){if(item>0)file-=item;else board[`${file--}\
     ${RANKS[down]}`]=item}});\
     for(const[,count,piece]of pieces.matchAll(/(\\d*)([a-z])/gi))hand[piece]=Number(count||1);\
     return{board,hand}},play(position,move,side){const[from,to]=this.squares(move);\
     const board={...position.board};const hand={...position.hand};const own=(piece)=>\
     (side?piece.toLowerCase():piece.toUpperCase());const change=(piece,by)=>\
     {hand[own(piece)]=(hand[own(piece)]??0)+by};if(board[to])change(board[to].at(-1),1);\
     if(from[1]==='*')change(from[0],-1);board[to]=from[1]==='*'?own(from[0]):(move[4]??'')+board[from];\
     delete board[from];return{board,hand}},squares:(move)=>\
     [move.slice(0,2),move.slice(2,4)],side:ownerOf,hasEntered({board}\
     ,side){return Object.keys(board).some((it)=>board[it]==='Kk'[side]&&FAR[side].includes(it[1]))}\
     ,kind:(piece)=>piece.toUpperCase(),checked({board},side){const king=Object.keys(board).find((it)=>\
     board[it]==='Kk'[side]);return Object.keys(board).find((it)=>\
     ownerOf(board[it])!==side&&attacked(board,it).includes(king))&&king},written({board}\
     ,move,side){const[from,to]=this.squares(move);if(from[1]==='*')return from+to;\
     const piece=board[from];const origin=alike(board,piece,to)[1]?from:'';\
     const stays=this.mayPromote(piece,from,to,side)?'=':'';return `${this.kind(piece)}${origin}\
     ${board[to] ? 'x' : '-'}${to}${move[4] ?? stays}`},writtenInJapan({board}\
     ,move,side,before){const[from,to]=this.squares(move);const isDrop=from[1]==='*';\
     const piece=isDrop?(side?from[0].toLowerCase():from[0]):board[from];\
     const number=String.fromCharCode(0xff10+Number(to[0]))+NUMERALS[RANKS.indexOf(to[1])];\
     const place=before&&this.squares(before)[1]===to?`${SAME}\\u3000`:number;\
     const others=alike(board,piece,to).filter((it)=>it!==from);\
     const how=isDrop?(others[0]?DROP:''):this.apart(piece,from,to,others,side);\
     const stays=!isDrop&&this.mayPromote(piece,from,to,side)?NOT+PROMOTED:'';\
     return '\\u25b2\\u25b3'[side]+place+NAMES[this.kind(piece)]+how+(move[4]?PROMOTED:stays)}\
     ,mayPromote(piece,from,to,side){return!piece[1]&&!'KG'.includes(this.kind(piece))&&[from,to].some((\
     it)=>FAR[side].includes(it[1]))},apart(piece,from,to,others,side){if(!others[0])return '';\
     const ahead=side?-1:1;const rise=(it)=>Math.sign(it[1].charCodeAt()-to[1].charCodeAt())*ahead;\
     const aside=(it)=>(to[0]-it[0])*ahead;const direction={1:UP,0:ASIDE,'-1':BACK}[rise(from)];\
     if(others.every((it)=>rise(it)!==rise(from)))return direction;\
     const isShort=!'RB'.includes(this.kind(piece).at(-1));if(isShort&&rise(from)>\
     0&&!aside(from))return STRAIGHT;const hand=others.some((it)=>aside(it)<aside(from))?RIGHT:LEFT;\
     const isOutermost=others.every((it)=>(hand===RIGHT?aside(it)<aside(from):aside(it)>aside(from)));\
     return isOutermost?hand:hand+direction},files:[...'987654321'],ranks:(isJapanese)=>\
     (isJapanese?[...NUMERALS]:RANKS)};const CHALLENGES=9999;const MINUTE=60;const LASTING=300000;\
     let me=null;let club=null;let received=0;let unanswered=0;const pictures=new Map();\
     let paintedHome='';const link=(view,name,words=name)=>make('a',{href:`#${view}/${name}`},words);\
     const isMine=(game)=>game.turn===me.member;const opponent=(game)=>\
     (game.first===me.member?game.second:game.first);const secondsLeft=(game)=>\
     (game.deadline===null?Infinity:game.deadline-me.moment);const minute=()=>\
     Math.floor(me.moment/MINUTE);const isOver=(game)=>secondsLeft(game)<0;const eventOf=(event)=>\
     club.events.find((it)=>it.event===event);const kindOf=(event)=>eventOf(event)?.game;\
     const rulesOf=({kind})=>(kind==='shogi'?shogi:draughts);const toMe=(it)=>\
     it.state==='open'&&it.to===me.member;const GROUPS=['toClaim','toAnswer','toMove','toWait'];\
     const[CLAIM,ANSWER,MOVE,WAIT]=GROUPS.keys();const hasOffer=(game)=>\
     game.offer&&game.offer!==me.member;const rank=(game)=>\
     (isMine(game)?MOVE:isOver(game)?CLAIM:hasOffer(game)?ANSWER:WAIT);const waitingGames=()=>\
     me.games.filter((it)=>rank(it)<WAIT);const byUrgency=(one,other)=>\
     rank(one)-rank(other)||secondsLeft(one)-secondsLeft(other)||one.game-other.game;\
     function timeLeft(game){if(game.deadline===null)return '';\
     if(isOver(game))return text(isMine(game)?'overMine':'overTheirs');\
     return text('left',{span:span(secondsLeft(game))})}\
     function pictureOf(game){if(pictures.get(game.game)?.ply!==game.ply){const rules=rulesOf(game);\
     const last=game.last?rules.squares(game.last):[];const near=game.second===me.member?1:0;\
     pictures.set(game.game,{ply:game.ply,drawn:miniature(rules,rules.read(game.position),near,[last[0],\
     last.at(-1)])})}return pictures.get(game.game).drawn.cloneNode(true)}\
     function card(game){const own=game.first===me.member?0:1;const rules=rulesOf(game);\
     const isLate=secondsLeft(game)<DAY;const words=(name,...its)=>make('span',{className:name},...its);\
     const turn=isMine(game)?text('yourTurn'):text('turn',{name:game.turn});\
     return make('li',{className:`card${rank(game) < WAIT ? ' mine' : ''}`}\
     ,make('a',{href:`#game/${game.game}`}\
     ,pictureOf(game),words('facts',words('who',opponent(game)),words('faint',`${game.event} \
     \\u00b7 ${text('youAre', { side: text(rules.sides[own]) })}\
     `),words(isMine(game)?'turn mine':'turn',turn),make('span',{className:isLate?'left late':'left',tit\
     le:moment(game.deadline)}\
     ,timeLeft(game)),...(game.offer?[words('tag',text('offers',{name:game.offer}))]:[]))))}\
     function group(name,games){if(!games[0])return[];return[make('h2',{},`${text(name)} \
     `,make('span',{className:'count'},String(games.length))),make('ul',{className:'cards'}\
     ,...games.map(card))]}function paintGames(){const sorted=me.games.toSorted(byUrgency);\
     const parts=GROUPS.flatMap((name,at)=>group(name,sorted.filter((it)=>rank(it)===at)));\
     const none=make('p',{className:'panel empty'},text('noGames'));\
     fill('games',...(parts[0]?parts:[none]))}function answers({event,from,number}\
     ){const path=`answers/${from}/${number}`;const answer=(name,where,body,look)=>\
     {return button(text(name),()=>perform(()=>ask(where,body)),`${name} ${where}`,look)};\
     return from===me.member?[answer('withdraw',`challenges/${number}/withdraw`,{}\
     )]:[...(eventOf(event).open?[answer('take',path,{accept:true}\
     ,'main')]:[]),answer('refuse',path,{accept:false})]}function paintChallenges(){const begun=(it)=>\
     me.games.find((game)=>game.game===it.game&&game.ply<2);const shown=me.challenges.filter((it)=>\
     it.state==='open'||begun(it)).sort((it,other)=>toMe(other)-toMe(it));const row=(it)=>\
     make('li',{className:toMe(it)?'mine':''},make('span',{}\
     ,text(toMe(it)?'challengesYou':'challenged',it),make('span',{className:'faint'}\
     ,` ${text('starts', { ...it, game: text(kindOf(it.event)) })}`)),make('span',{className:'answers'}\
     ,...(it.state==='open'?answers(it):[make('span',{className:'tag good'}\
     ,text('accepted')),link('game',it.game,text('toGame'))])));const declined=me.refused.map((it)=>\
     make('li',{},make('span',{},text('challenged',it),make('span',{className:'faint'}\
     ,` ${text('starts', { ...it, game: text(kindOf(it.event)) })}`))));\
     const folded=make('details',{id:'declined',open:!!byId('declined')?.open},make('summary',{}\
     ,`${text('declined')} `,make('span',{className:'count'}\
     ,String(declined.length))),make('ul',{className:'rows'},...declined));\
     const more=[['moreReceived',me.more.to],['moreOwn',me.more.from]].filter(([,count])=>\
     count).map(([name,count])=>make('p',{className:'faint'},text(name,{count})));\
     fill('challenges',...(shown[0]?[make('h2',{},text('challenges')),make('ul',{className:'rows'}\
     ,...shown.map(row))]:[]),...more,...(declined[0]?[folded]:[]))}\
     function paintClub(){const terms=(it)=>\
     text(it.increment?'terms':'wholeGame',{game:text(it.game),budget:span(it.budget),increment:span(it.\
     increment)});const row=(it)=>make('li',{},link('event',it.event),make('span',{className:'faint'}\
     ,terms(it)),...(it.open?[]:[make('span',{className:'tag'},text(68))]));\
     const open=club.events.filter((it)=>it.open);fill('events',...club.events.map(row));\
     const others=club.members.filter((it)=>it!==me.member);fill('other',...others.map((it)=>\
     make('option',{},it)));fill('cup',...open.map((it)=>make('option',{value:it.event}\
     ,text('eventGame',{event:it.event,game:text(it.game)}))));\
     byId('challenge').hidden=!others[0]||!open[0]}\
     async function lookAtEnded(){if(!byId('ended').open)return;const{games,more}=await ask('me/ended');\
     const faint=(...words)=>make('span',{className:'faint'},words.filter((it)=>it).join(' \\u00b7 '));\
     const rows=games.map((it)=>make('li',{}\
     ,link('game',it.game,opponent(it)),faint(it.event,ending(it,me.member),moment(it.ended))));\
     fill('ended-games',rows[0]?make('ul',{className:'rows'},...rows):make('p',{className:'faint'}\
     ,text('noEnded')),...(more?[make('p',{className:'faint'},text('older',{count:more}))]:[]))}\
     const challengesToMe=()=>me.challenges.filter(toMe).length+me.more.to;\
     async function lookAtMe(){me=await ask('me');\
     return{member:me.member,waiting:waitingGames().length+challengesToMe()}}\
     function nextGame(shown){const others=waitingGames().filter((it)=>it.game!==shown).sort(byUrgency);\
     return{next:others[0],count:others.length}}function newsOf(){const item=(it,name,kind)=>\
     {const words=text(name,{name:opponent(it),event:it.event});return{tag:`${kind} ${it.game}\
     `,words,place:`game/${it.game}`,end:kind==='game'}};return[...me.games.filter(isMine).map((it)=>\
     item(it,'noticeTurn',`ply ${it.ply}`)),...me.games.filter((it)=>!isMine(it)&&isOver(it)).map((it)=>\
     item(it,'noticeOver','over')),...me.games.filter(hasOffer).map((it)=>\
     item(it,'noticeOffer',`offer ${it.ply}`)),...me.games.map((it)=>\
     item(it,'noticeEnded','game')),...me.refused.map((it)=>{return{tag:`declined ${it.number}\
     `,words:text('noticeDeclined',{name:it.to,event:it.event}),place:''}}\
     ),...me.challenges.filter(toMe).map((it)=>{return{tag:`challenge ${it.from} ${it.number}\
     `,words:`${text('challengesYou', it)} ${it.event}`,place:''}})]}\
     async function lookAtClub(names){if(!club||names.some((it)=>!kindOf(it))||Date.now()-received>\
     LASTING){club=await ask('me/events');received=Date.now()}return club}\
     async function lookAtHome(_,mine){await mine;\
     await lookAtClub([...me.challenges,...me.refused].map((it)=>it.event));return()=>\
     {fill('title',text('home'));const isNear=me.games.some((it)=>Math.abs(secondsLeft(it))<2*MINUTE);\
     const now=JSON.stringify([{...me,moment:isNear?me.moment:minute()},club,text('code')]);\
     if(now===paintedHome)return;paintedHome=now;paintGames();paintChall"
}

/// Part 4 of the page, in ASCII.
#[tactic(auto, unfolding(crate::specs::Joined::page_4))]
pub fn page_4() -> &'static str
    ensures { result.now ≡ page_4 }
{
    "enges();paintClub();lookAtEnded().catch(()=>{});\
     byId('news').textContent=text('news',{moves:me.games.filter(isMine).length,challenges:challengesToM\
     e()})}}async function challenge(terms,tries=3){unanswered||=Math.ceil(Math.random()*CHALLENGES);\
     try{await ask(`challenges/${unanswered}`,terms);unanswered=0}\
     catch(error){if(error.number!==58||!tries)throw error;unanswered=0;await challenge(terms,tries-1)}}\
     function paintWelcome(){const opening=(rules)=>miniature(rules,rules.read(rules.opening),0,[]);\
     fill('welcome',opening(draughts),opening(shogi));club=null;pictures.clear()}\
     function startHome(){byId('challenge').onsubmit=(event)=>{event.preventDefault();\
     const terms={event:byId('cup').value,first:!byId('begins').selectedIndex,other:byId('other').value}\
     ;perform(()=>challenge(terms))};byId('ended').ontoggle=()=>lookAtEnded().catch(()=>{})}\
     const POINTS={'2-0':[2,0],'1-1':[1,1],'0-2':[0,2]};const pair=(game)=>`${game.first} \
     \\u2013 ${game.second}`;const score=(game)=>\
     text('score',{pair:pair(game),result:game.result??text('running')});const WIDEST=40;const STEP=50;\
     const FEW=10;const MANY=500;let seenEvent='';let seenReplies='';let repaint=()=>{};\
     let held={games:[],standings:[]};let shownRows={};const sums=(isRunning)=>\
     [...[['games','played'],['wins','wins'],['draws','draws'],['losses','losses']].map(([key,head])=>\
     [key,text(head)]),['sonneborn_berger','SB',text('sonnebornBerger')],...(isRunning?[['running',text(\
     'inProgress')]]:[])];function outcome(game){if(game.end)return[reason(game)];\
     const seconds=secondsLeft(game);\
     const left=seconds<0?text('over'):seconds<Infinity?text('left',{span:span(seconds)}):'';\
     return[text('turn',{name:game.turn}),left]}const both=(one,other)=>[one,other].sort().join(' ');\
     function cell(games,name){return make('td',{className:'cell'},...games.map((it)=>\
     make('a',{href:`#game/${it.game}`,title:score(it),ariaLabel:`${text('game')} ${it.game}\
     ${text('comma')}${score(it)}`,className:it.end?'':'running'}\
     ,it.end?String(POINTS[it.result][it.first===name?0:1]):'\\u2022')))}\
     function crossTable(standings,games,reader){const byPairs={};\
     for(const it of games)(byPairs[both(it.first,it.second)]??=[]).push(it);\
     const head=(label,title='')=>make('th',{scope:'col',title},label);const columns=standings.length>\
     WIDEST?[]:standings;const counts=sums(games.some((it)=>!it.end));const cells=(row)=>\
     columns.map((other)=>{return other===row?make('td',{className:'self'}\
     ):cell(byPairs[both(row.member,other.member)]??[],row.member)});\
     return make('table',{className:'cross'},make('thead',{},make('tr',{}\
     ,head('',text('place')),head(text('name')),head(text('points')),...columns.map((it)=>\
     head(String(it.place),it.member)),...counts.map(([,...it])=>head(...it)))),make('tbody',{}\
     ,...standings.map((row)=>make('tr',{className:row.member===reader?'mine':''},make('td',{}\
     ,String(row.place)),make('th',{scope:'row'},row.member),make('td',{className:'points'}\
     ,String(row.points)),...cells(row),...counts.map(([key])=>make('td',{},String(row[key])))))))}\
     const moveCount=(count)=>\
     {return text(new Intl.PluralRules(text('code')).select(count)==='one'?'oneMove':'moveCount',{count}\
     )};function list(name,all,reader,kind){const sought=byId('search').value.trim().toLowerCase();\
     const isOwn=(it)=>[it.first,it.second].includes(reader);const games=all.filter((it)=>\
     pair(it).toLowerCase().includes(sought)).sort((it,other)=>isOwn(other)-isOwn(it));\
     if(!games[0])return[];const count=shownRows[name]??STEP;const more=()=>{shownRows[name]=count+STEP;\
     repaint()};const words=(...some)=>some.filter((it)=>it).join(' \\u00b7 ');const row=(it)=>\
     make('li',{className:isOwn(it)?'mine':''},make('span',{}\
     ,make('span',{className:'number',ariaHidden:true},`${it.game}`),make('a',{href:`#game/${it.game}`}\
     ,pair(it))),make('span',{className:'faint'}\
     ,words(moveCount(kind==='draughts'?Math.ceil(it.ply/2):it.ply),...outcome(it))),make('b',{}\
     ,it.result??''));return[make('h2',{},`${text(name)} `,make('span',{className:'count'}\
     ,String(games.length))),make('ul',{className:'rows'}\
     ,...games.slice(0,count).map(row)),...(games.length>\
     count?[button(text('more',{count:games.length-count}),more,name)]:[])]}\
     function paintLists(games,reader,kind){const lists=[['runningGames',games.filter((it)=>\
     !it.end)],['endedGames',games.filter((it)=>it.end)]];const found=lists.flatMap(([name,some])=>\
     list(name,some,reader,kind));\
     fill('event-games',...(found[0]||!games[0]?found:[make('p',{className:'faint',role:'status'}\
     ,text('none'))]))}function startEvent(){byId('search').oninput=()=>repaint()}\
     async function requestEvent(name){const{games}=await ask(`events/${name}/games`);const{standings}\
     =await ask(`events/${name}/standings`);held={standings,games,at:Date.now()}}\
     async function lookAtEvent(name,_,isShown){if(!isShown||held.games.length<=MANY||Date.now()-held.at\
     >LASTING)await requestEvent(name);const{standings,games}=held;const{events}\
     =await lookAtClub([name]);return(reader)=>{const kind=events.find((it)=>it.event===name)?.game;\
     fill('title',name);\
     const now=JSON.stringify([name,standings,games,kind,reader,minute(),text('code')]);\
     if(now===seenReplies)return;seenReplies=now;fill('about',`${text(kind)} \\u00b7 ${text('scoring')}\
     `);fill('standings',...(games[0]?[crossTable(standings,games,reader)]:[make('p',{className:'empty'}\
     ,text('noGamesYet'))]));if(name!==seenEvent){byId('search').value='';shownRows={}}seenEvent=name;\
     byId('search-games').hidden=games.length<=FEW;repaint=()=>paintLists(games,reader,kind);repaint()}}\
     const FAR_ENOUGH=6;const QUICK=180;let cells={};let dragged=null;let isDragEnd=false;\
     function layCell(name,square,properties){cells[name]=make('button',{type:'button',...properties});\
     cells[name].dataset.square=square;return cells[name]}\
     function layHand(id,rules,side){byId(id).hidden=!rules.hand[0];\
     byId(id).replaceChildren(...rules.hand.map((kind)=>\
     {return layCell(side?kind.toLowerCase():kind,`${kind}*`)}))}const edge=(id,names)=>\
     byId(id).replaceChildren(...names.map((it)=>make('span',{},it)));\
     function layBoard(rules,near){const turn=(list)=>(near?list.toReversed():list);cells={};\
     const laid=turn(rules.rows).map((row)=>{return make('div',{role:'row'},...turn(row).map((it)=>\
     layCell(it,it,{role:'gridcell',tabIndex:-1})))});laid.at(-1).firstChild.tabIndex=0;\
     byId('play').className=rules.hand[0]?'shogi':'draughts';\
     byId('board').replaceChildren(...laid,draw('svg',{id:'routes','aria-hidden':true}));\
     edge('files',turn(rules.files??[]));edge('ranks',turn(rules.ranks?.(isJapanese())??[]));\
     layHand('far-hand',rules,1-near);layHand('near-hand',rules,near)}\
     function paintCell(cell,piece,place,{rules,near,letters,marks}\
     ){const side=piece&&rules.side(piece);const kind=piece&&rules.kind(piece);\
     const name=piece?text('piece',{side:text(rules.sides[side]),kind:kindName(kind)}):text('empty');\
     const found=Object.keys(marks).filter((it)=>\
     !cell.disabled&&marks[it].includes(cell.dataset.square));cell.className=found.join(' ');\
     cell.ariaLabel=[place,name,...found.map((it)=>text(it))].join(text('comma'));\
     if(cell.value===piece+letters+near)return;cell.value=piece+letters+near;\
     cell.replaceChildren(...(piece?[picture(kind,side,side!==near,letters)]:[]))}\
     function paintBoard({board,hand}\
     ,shown){for(const[name,cell]of Object.entries(cells)){const count=hand?.[name]??0;\
     const isHeld=name>'A';if(isHeld)cell.dataset.count=count>1?count:'';\
     if(isHeld)cell.disabled=shown.own!==+(name>'a');cell.hidden=isHeld&&!count;\
     paintCell(cell,isHeld?name:board[name]??'',isHeld?`${text('hand')} ${count}`:name,shown)}}\
     function slide(from,to){const[start,end]=[cells[from],cells[to]];\
     if(!chosen('animate')||matchMedia('(prefers-reduced-motion: reduce)').matches)return;\
     if(!start?.offsetParent||!end?.firstChild)return;const[one,other]=[start,end].map((it)=>\
     it.getBoundingClientRect());const translate=[`${one.x - other.x}px ${one.y - other.y}px`,'0 0'];\
     end.firstChild.animate({translate,zIndex:[5,5]},{duration:QUICK,easing:'ease-out'})}\
     function drawRoutes(routes,taken){const centre=(square)=>\
     {const{offsetLeft,offsetTop,offsetWidth,offsetHeight}=cells[square];\
     return[offsetLeft+offsetWidth/2,offsetTop+offsetHeight/2]};\
     byId('routes').replaceChildren(...routes.map((route,at)=>\
     {return draw('polyline',{points:route.map(centre),class:at===taken?'chosen':''})}))}\
     const focusOn=(square)=>cells[square]?.focus({preventScroll:true});\
     function moveFocus(event){const cell=event.target;const row=cell.parentNode;\
     const at=[...row.children].indexOf(cell);\
     const next={ArrowUp:row.previousElementSibling?.children[at],ArrowDown:row.nextElementSibling?.chil\
     dren[at],ArrowLeft:cell.previousElementSibling,ArrowRight:cell.nextElementSibling}[event.key];\
     if(!next?.dataset.square)return;event.preventDefault();cell.tabIndex=-1;next.tabIndex=0;\
     next.focus()}function drag({clientX,clientY}\
     ,lifted){const[right,down]=[clientX-dragged.x,clientY-dragged.y];\
     if(!dragged.moving&&Math.hypot(right,down)<FAR_ENOUGH)return;\
     if(!dragged.moving)lifted(dragged.cell.dataset.square);dragged.moving=true;\
     dragged.picture.style.translate=`${right}px ${down}px`}const squareOf=(element)=>\
     element?.closest('[data-square]:enabled')?.dataset.square;function endDrag({type,clientX,clientY}\
     ,dropped){const{cell,picture:shown,moving}=dragged;\
     const on=type==='pointerup'?document.elementFromPoint(clientX,clientY):null;dragged=null;\
     shown.style.translate='';isDragEnd=moving;setTimeout(()=>{isDragEnd=false});\
     if(moving)dropped(cell.dataset.square,squareOf(on))}function startBoard({touched,lifted,dropped}\
     ){const play=byId('play');play.onclick=({target})=>{if(!isDragEnd)touched(squareOf(target))};\
     byId('board').onkeydown=moveFocus;play.onpointerdown=({target,button,clientX,clientY})=>\
     {const cell=!button&&target.closest('.movable');\
     dragged=cell&&{cell,picture:cell.firstChild,x:clientX,y:clientY}};document.onpointermove=(event)=>\
     dragged&&drag(event,lifted);document.onpointerup=document.onpointercancel=(event)=>\
     dragged&&endDrag(event,dropped)}const kept=()=>JSON.parse(recall('unsent')??'null');\
     function putAway(){forget('unsent');sayUnsent()}function tellUnsent(){const it=kept();\
     if(it)sayUnsent(text('unsent',it),()=>deliver(it).then(lookAgain),putAway);else sayUnsent()}\
     async function deliver(it){let isTaken=false;try{await ask(`games/${it.game}/moves/${it.ply}\
     `,{move:it.move});isTaken=true;putAway();complain()}\
     catch(error){if(isPassing(error)){keep('unsent',JSON.stringify(it),'sessionStorage');tellUnsent();\
     sayAway(error.message)}else{putAway();complain(error.message)}}return isTaken}\
     function settle({game,ply,end}){const it=kept();if(it&&it.game===game&&(ply>\
     =it.ply||end))putAway()}const BUTTONS={start:-1000,back:-1,on:1,present:1000};let reader='';\
     let game=null;let clock=null;let told=0;let legal=[];let rules=draughts;let positions=[];\
     let written=[];let ply=null;let isFlipped=false;let touched=null;let waiting=null;let sent=null;\
     let study=null;let explored=0;let paintedGame='';let seen={};const players=()=>\
     [game.first,game.second];const own=()=>players().indexOf(reader);const near=()=>\
     ((own()===1)!==isFlipped?1:0);const isMyTurn=()=>game&&!game.end&&own()===game.ply%2;\
     const plies=()=>(study?study.at+study.moves.length:ply??game.ply);const mover=()=>\
     (study?plies()%2:own());const first=(move)=>rules.squares(move)[0];const target=(move)=>\
     rules.squares(move).at(-1);const tried=()=>(ply===null&&!study?waiting??sent:null);\
     const playable=()=>(study?study.legal:isMyTurn()&&ply===null&&!tried()?legal:[]);\
     const movesOf=(from,to)=>playable().filter((it)=>first(it)===from&&target(it)===to);\
     const isOpen=()=>game&&!byId('game').hidden;const passed=()=>(Date.now()-told)/1000;\
     const timeOf=(side)=>clock.now[side]-(clock.turn===players()[side]?passed():0);const isOverdue=()=>\
     clock.deadline!==null&&clock.moment+passed()>clock.deadline;\
     function spell(at,move=game.moves[at]){if(rules===draughts)return move;\
     if(isJapanese())return shogi.writtenInJapan(positions[at],move,at%2,game.moves[at-1]);\
     return shogi.written(positions[at],move,at%2)}\
     function spellTried(move){if(rules===draughts)return move;\
     const before=study.moves.at(-1)??game.moves[plies()-1];\
     if(isJapanese())return shogi.writtenInJapan(study.position,move,mover(),before);\
     return shogi.written(study.position,move,mover())}function choose(question,options,seenAt=()=>{}\
     ,looks='main'){const dialog=byId('dialog');byId('question').textContent=question;\
     return new Promise((taken)=>\
     {byId('options').replaceChildren(...[...options,text('cancel')].map((option,at)=>\
     {const made=button(option,()=>{taken(at);dialog.close()},'',at<options.length?looks:'');\
     made.onfocus=made.onpointerenter=()=>seenAt(at);made.autofocus=options.length===1&&at===1;\
     return made}));dialog.onclose=()=>taken(options.length);dialog.showModal()})}\
     function paintPosition(){const trial=tried();const before=study?.position??positions[plies()];\
     const position=trial?rules.play(before,trial,game.ply%2):before;\
     const last=trial??study?.moves.at(-1)??game.moves[plies()-1];\
     const checked=rules.checked?.(position,(plies()+!!trial)%2);\
     const mustTake=playable()[0]?.includes('x');\
     const marks={last:last?[first(last),target(last)].filter((it)=>\
     it[1]!=='*'):[],tried:waiting&&trial?[target(trial)]:[],touched:[touched],target:playable().filter(\
     (it)=>first(it)===touched).map(target),movable:playable().map(first),check:checked?[checked]:[]};\
     byId('board').className=mustTake?'must':'';byId('play').classList.toggle('study',!!study);\
     paintBoard(position,{rules,near:near(),own:mover(),letters:chosen('letters'),marks});\
     drawRoutes(trial&&rules.squares(trial).length>2?[rules.squares(trial)]:[],0);\
     const now={game:game.game,count:plies()+!!trial};\
     if(now.game===seen.game&&now.count-seen.count===1)slide(first(last),target(last));\
     const undone=!study&&game.moves[now.count];\
     if(now.game===seen.game&&seen.count-now.count===1&&undone&&!trial)slide(target(undone),first(undone\
     ));seen=now}function paintPlayer(id,side){const name=players()[side];\
     const dot=make('span',{className:`dot side${side}`,ariaHidden:true});fill(`${id}\
     -player`,make('b',{},dot,name),make('span',{className:'faint'},text(rules.sides[side])));\
     const isTurn=!game.end&&game.ply%2===side;byId(id).className=`player${isTurn ? ' turn' : ''}`}\
     function tick(){if(!isOpen())return;\
     for(const[id,side]of[['near',near()],['far',1-near()]]){const face=byId(`${id}-clock`);\
     const words=clockFace(timeOf(side));if(face.textContent!==words)face.textContent=words;\
     const isLow=clock.turn===players()[side]&&timeOf(side)<DAY;\
     face.className=`clock${isLow ? ' low' : ''}`}}function state(){const at=plies();\
     if(study)return[make('b',{}\
     ,text('analysis')),` ${[...study.words, study.end && text(study.end)].filter(Boolean).join(text('co\
     mma'))}`];const move=at&&text('moved',{name:players()[(at+1)%2],move:spell(at-1)});\
     if(ply!==null)return[move||text('atStart')];\
     if(game.end){const isMate=!!rules.checked?.(positions[at],at%2);return[make('b',{}\
     ,ending({...game,isMate},reader)),...(move?[` ${move}`]:[])]}\
     const turn=isMyTurn()?text('yourTurn'):text('turn',{name:players()[at%2]});\
     if(waiting&&tried())return[make('b',{},turn)];\
     const until=clock.deadline===null?'':isOverdue()?text(isMyTurn()?'overMine':own()<0?'overOther':'ov\
     erTheirs'):text('until',{moment:moment(clock.deadline),left:text('left',{span:span(clock.deadline-c\
     lock.moment)})});return[make('b',{},turn),` ${until}`,...(move?[make('span',{className:'faint'}\
     ,` ${move}`)]:[])]}function hint(){if(study)return text('analysisHint');\
     const trial=waiting&&tried();if(trial)return text('confirmHint',{move:spell(game.ply,trial)});\
     if(sent)return text('sending');\
     if(game.offer&&!game.end)return text(game.offer===reader?'yourOffer':'offers',{name:game.offer});\
     if(!playable()[0])return ply===null?'':text('earlier');\
     if(legal[0].includes('x'))return text('mustTake');\
     return rules.checked?.(positions[game.ply],own())?text('inCheck'):''}\
     function action(name,path,looks=''){return button(text(name),async()=>\
     {if(await choose(text('sure',{what:text(name)}),[text(name)],undefined,`main ${looks}\
     `)===0)perform(()=>ask(path,{}))},path,looks)}function actions(){const next=game.ply+1;\
     const found=[];const may=(name,end,looks)=>found.push(action(name,`games/${game.game}/${end}\
     `,looks));if(game.end||own()<0||study)return found;\
     if(game.offer&&game.offer!==reader)may('accept',`draw/${next}/accept`,'main');\
     if(!isMyTurn()&&isOverdue())may('claim','claim-time','main');\
     if(isMyTurn()&&rules.hasEntered?.(positions[game.ply],own()))may('declare',`declare/${next}`);\
     if(rules===draughts&&!game.offer)may('offer',`draw/${next}/offer`);may('resign','resign','danger');\
     if(!isMyTurn())Object.assign(found.at(-1),{disabled:true,title:text('resignWhen')});return found}\
     function paintMoves(){const list=byId('moves');const step=(at)=>{const made=button(written[at],()=>\
     (study?explore(at+1):stepTo(at+1)),String(at+1));\
     if(written[at]!==game.moves[at])made.title=game.moves[at];return make('li',{value:at+1},made)};\
     list.className=rules===draughts?'pairs':isJapanese()?'plies wide-signs':'plies';\
     const old=list.querySelector('[aria-current]');old?.removeAttribute('aria-current');\
     fill('moves',...game.moves.map((_,at)=>step(at)));\
     const current=list.children[(study?.at??plies())-1]?.firstChild;\
     if(current)current.ariaCurrent=true;\
     if(current!==old||!current)list.scrollTop=current?current.offsetTop-list.clientHeight/2:0}\
     function paintSteps(){const made=Object.entries(BUTTONS).map(([name,by])=>\
     {const step=button(icon(name),()=>stepTo(plies()+by),name);const at=by<0?plies()>\
     0:study?!study.moves[0]&&study.at<game.ply:ply!==null;\
     return Object.assign(step,{ariaLabel:text(name),title:text(name),ariaDisabled:!at})});\
     const flip=button(icon('flip'),turnBoard,'flip');\
     fill('steps',...made,Object.assign(flip,{ariaLabel:text('flip'),title:text('flip'),ariaPressed:isFl\
     ipped}))}function paint(){paintPosition();paintPlayer('far',1-near());paintPlayer('near',near());\
     tick();written=game.moves.map((_,at)=>spell(at));fill('title',`${text('game')} ${game.game}\
     ${text('comma')}`,make('a',{href:`#event/${game.event}`},game.event));fill('state',...state());\
     fill('hint',hint());const isWaiting=!!(waiting&&tried());byId('confirm').hidden=!isWaiting&&!study;\
     byId('confirm').dataset.move=isWaiting?spell(game.ply,waiting):'';\
     fill('confirm',...(study?[button(text('backToGame'),()=>\
     explore(null),'leave','main'),button(text('undo'),()=>\
     stepTo(plies()-1),'undo')]:isWaiting?[button(text('confirm'),()=>\
     send(waiting),'confirm','main'),button(text('takeBack'),()=>takeBack(),'back')]:[]));\
     const found=actions();const isUrgent=(it)=>it.className==='main';\
     fill('urgent',...found.filter(isUrgent));fill('actions',...found.filter((it)=>!isUrgent(it)));\
     const{next,count}=nextGame(game.game);const isFree=next&&!isMyTurn()&&!study;\
     fill('next',...(isFree?[make('a',{href:`#game/${next.game}`,className:'button'}\
     ,text('nextGame',{count}))]:[]));paintSteps();paintMoves();const words=make('span',{}\
     ,icon('record'),` ${text('record')}`);const opener=Object.assign(button(text('analyse'),()=>\
     explore(plies()),'analyse'),{id:'analyse',hidden:!!study});\
     fill('tools',opener,Object.assign(button(words,()=>perform(download),'record'),{id:'record'}));\
     tellUnsent()}function lay(){layBoard(rules,near());seen={};paint()}\
     function turnBoard(){isFlipped=!isFlipped;lay()}\
     async function explore(at,moves=[],words=[]){touched=waiting=null;explored+=1;const{game:id}=game;\
     const count=explored;if(at===null)study=null;else{const body={game:id,ply:at,moves};\
     const reply=await answerOf(()=>ask(`analysis/${rules === shogi ? 'shogi' : 'draughts'}`,body));\
     if(!reply||count!==explored||game?.game!==id)return;\
     study={...reply,at,words,position:rules.read(reply.position)}}paint()}\
     function stepTo(count){if(study){const{at,moves,words}=study;\
     const to=Math.min(Math.max(count,0),moves[0]?plies():game.ply);if(to===plies())return;\
     explore(Math.min(to,moves[0]?at:to),moves.slice(0,Math.max(to-at,0)),words.slice(0,Math.max(to-at,0\
     )));return}ply=count<game.ply?Math.max(count,0):null;touched=waiting=null;paint()}\
     function takeBack(){const from=waiting&&first(waiting);waiting=touched=null;paint();focusOn(from)}\
     async function send(move){const to=target(move);\
     const it={game:game.game,ply:game.ply+1,move,as:spell(game.ply,move)};sent=move;\
     waiting=touched=null;paint();focusOn(to);if(!await deliver(it)){sent=null;\
     if(game?.game===it.game)paint()}await lookAgain()}\
     async function chooseMove(moves){const board=(study?.position??positions[game.ply]).board;\
     const kind=rules.kind(board[first(moves[0])]);const piece=(it)=>make('span',{}\
     ,picture(it,mover(),false,chosen('letters')),kindName(it));const options=moves.map((it)=>\
     (rules===shogi?piece((it[4]??'')+kind):it));const taken=await choose(text('which'),options,(at)=>\
     rules===draughts&&drawRoutes(moves.map(rules.squares),at));drawRoutes([]);return taken}\
     function lift(square){touched=square;paintPosition()}\
     async function go(from,to){const moves=movesOf(from,to).reverse();const move=moves[moves.length>\
     1?await chooseMove(moves):0];if(!playable().includes(move))return lift(null);\
     if(study)return explore(study.at,[...study.moves,move],[...study.words,spellTried(move)]).then(()=>\
     focusOn(to));if(!chosen('confirm'))return send(move);waiting=move;touched=null;paint();\
     return byId('confirm').firstChild?.focus({preventScroll:true})}\
     function touch(square){if(waiting){const isOwnOther=![first(waiting),target(waiting)].includes(squa\
     re);takeBack();if(!isOwnOther)return}if(movesOf(touched,square)[0]){go(touched,square);return}\
     const isMovable=playable().map(first).includes(square);\
     const isOwn=square&&positions[game.ply].board[square]&&rules.side(positions[game.ply].board[square]\
     )===own();byId('say').classList.toggle('told',!!playable()[0]&&isOwn&&!isMovable);\
     lift(square!==touched&&isMovable?square:null)}\
     async function download(){const href=URL.createObjectURL(await(await request(`games/${game.game}\
     /record`)).blob());make('a',{href,download:`${game.event}-${game.game}\
     .${rules === shogi ? 'csa' : 'pdn'}`}).click()}\
     function take(now,kind){const isOther=game?.game!==now.game;\
     if(isOther||now.ply!==game.ply||now.end)touched=waiting=sent=null;if(isOther)study=null;game=now;\
     settle(now);rules=kind==='shogi'?shogi:draughts;positions=[rules.read(rules.opening)];\
     now.moves.forEach((move,at)=>positions.push(rules.play(positions[at],move,at%2)));\
     positions[now.ply]=rules.read(now.position);if(!isOther)return;ply=null;isFlipped=false;seen={};\
     layBoard(rules,near())}async function lookAtGame(id){const now=await ask(`games/${id}/page`);\
     return(name)=>{reader=name;clock=now.clock;told=Date.now();legal=now.legal;const{next,count}\
     =nextGame(now.game.game);\
     const left=clock.deadline===null||isOverdue()||span(clock.deadline-clock.moment);\
     const replies=JSON.stringify([now.game,now.kind,legal,left,next?.game,count,name,text('code')]);\
     if(replies===paintedGame)return;take(now.game,now.kind);paint();paintedGame=replies}}\
     const repaintGame=()=>isOpen()&&lay();function leaveGame(){game=study=null;explored+=1;\
     paintedGame='';byId('dialog').close()}\
     function startGame(){startBoard({touched:touch,lifted:lift,dropped:go});setInterval(tick,1000);\
     document.onkeydown=({key,target:on,ctrlKey,altKey,metaKey})=>\
     {if(!isOpen()||ctrlKey||altKey||metaKey||on.closest('select, input, dialog'))return;\
     if(key==='f')turnBoard();if(key==='Escape'){if(waiting)takeBack();else lift(null)}\
     if(on.closest('[role=grid], #standings'))return;\
     const to={ArrowLeft:plies()-1,ArrowRight:plies()+1,Home:0,End:game.ply}[key];\
     if(to!==undefined)stepTo(to)}}\
     async function store(name,box){const isRefused=name==='alerts'&&box.checked&&!await mayNotify();\
     if(name==='alerts')byId('alerts-refused').hidden=!isRefused;if(isRefused)box.checked=false;\
     keep(name,box.checked)}function startSettings(changed){const dialog=byId('settings');\
     byId('open-settings').prepend(icon('settings'));byId('open-settings').onclick=()=>\
     {byId('alerts-refused').hidden=!chosen('alerts')||!isForbidden();dialog.showModal()};\
     dialog.onclick=({target})=>{if(target===dialog)dialog.close()};\
     for(const name of choices){const box=byId(`${name}-choice`);box.checked=chosen(name);\
     box.onchange=()=>store(name,box).then(changed)}}const OFTEN=4000;const SELDOM=30000;\
     const HIDDEN=300000;const SOON=300;const UNKNOWN=[52,53];\
     const VIEWS={home:lookAtHome,event:lookAtEvent,game:lookAtGame};let key=recall('memberKey')??'';\
     let looking=Promise.resolve();let shown=null;let timer=0;\
     function show(view){for(const id of['sign-in','missing','waiting',...Object.keys(VIEWS)])byId(id).h\
     idden=id!==view;for(const id of['member','sign-out','badge'])byId(id).hidden=!key;\
     document.body.className=view;if(view!=='game')leaveGame()}\
     function showWords(view,title){fill('title',title);show(view);shown=null;document.title=title}\
     function showWaiting(){const{view,name}=place();\
     showWords('waiting',{home:text('home'),game:`${text('game')} ${name}`,event:name}[view])}\
     function place(){const[,view='home',name]=/^#(game|event)\\/([\\w.-]+)$/.exec(location.hash)??[];\
     return{view,name}}function isUnknown(error){if(!UNKNOWN.includes(error.number))throw error}\
     async function lookOnce(){const{hash}=location;const{view,name}=place();\
     const isHidden=document.hidden;const mine=lookAtMe();\
     const[me,paint]=await Promise.all([mine,isHidden?null:VIEWS[view](name,mine,shown===hash).catch(isU\
     nknown)]);fill('member',me.member);fill('badge',me.waiting?String(me.waiting):'');\
     const count=me.waiting?`(${me.waiting}) `:'';announce(me.member,me.waiting,newsOf());\
     if(isHidden){document.title=count+(byId('title').textContent||text('home'));return}\
     if(hash!==location.hash||!key)return;if(paint){show(view);paint(me.member);shown=hash}\
     else showWords('missing',text(view==='game'?53:52));tellUnsent();\
     document.title=count+byId('title').textContent}function isBack(){sayAway();return SELDOM}\
     function isWrong(error){if(!key)return SELDOM;if(error.number===50)enter('',error.message);\
     else if(isPassing(error))sayAway(error.message);else complain(error.message);\
     if(key&&shown!==location.hash)showWaiting();return isPassing(error)?OFTEN:SELDOM}\
     function lookLater(pause){clearTimeout(timer);if(document.hidden&&!isWatching())return;\
     timer=setTimeout(()=>key&&look(),document.hidden?HIDDEN:pause)}function look(){clearTimeout(timer);\
     looking=looking.then(lookOnce).then(isBack,isWrong).then(lookLater);return looking}\
     async function lookAround(){const{hash}=location;const slow=setTimeout(()=>\
     hash===location.hash&&shown!==hash&&showWaiting(),SOON);await look();clearTimeout(slow)}\
     function enter(given,why=''){key=given;showKey(key);if(key)return lookAround();forget('memberKey');\
     putAway();sayAway();complain(why);paintWelcome();showWords('sign-in',text('signIn'));\
     return byId(byId('name').value?'key':'name').focus()}\
     async function signIn(event){event.preventDefault();complain();\
     const given=byId('name').value.trim().toLowerCase();await enter(byId('key').value.trim());\
     if(!key)return;const name=byId('member').textContent;\
     if(given&&name&&given!==name.toLowerCase())complain(text('otherName',{name}));\
     keep('memberKey',key,byId('remember').checked?'localStorage':'sessionStorage');\
     byId('sign-in').reset();byId('title').focus()}function signOut(){forget('memberKey');\
     forget('unsent');location.hash='';location.reload()}async function turn(){if(!key)return;\
     complain();await lookAround();scrollTo(0,0);byId('title').focus({preventScroll:true})}\
     function changeLanguage(){leaveGame();if(key)look();else showWords('sign-in',text('signIn'))}\
     startNotices(look);startLanguage(changeLanguage);startSettings(()=>repaintGame());startGame();\
     startHome();startEvent();byId('sign-in').onsubmit=signIn;byId('sign-out').onclick=signOut;\
     window.onhashchange=turn;document.onvisibilitychange=()=>key&&(document.hidden?lookLater():look());\
     window.ononline=()=>key&&!document.hidden&&look();writeManifest();show('');enter(key);</script>\n"
}

/// What a browser lets the page do: the value of Content-Security-Policy (W3C, CSP Level 3).
#[tactic(auto, unfolding(crate::specs::Joined::policy))]
pub fn policy() -> &'static str
    ensures { result.now ≡ policy }
{
    "default-src 'none'; style-src 'sha256-LBekJrt0n0to7MaKjFLKEUJ5Fgk4COnJ3p36HkTHEzU='; \
     script-src 'sha256-8UuvuSziflAnBMxQqaadUIHY82sKszpyFsherU/TI4U='; connect-src 'self'; \
     img-src data:; manifest-src data:; base-uri 'none'; form-action 'none'; frame-ancestors 'none'"
}
